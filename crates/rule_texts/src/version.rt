// Made by conformance/rule_texts.py.

/// Which rules are built in: the edition of the standard, and of each file its name and the first digits of its SHA-256.
pub const RULES_VERSION: &str =
    "rules of EN 16931-1:2017: en16931-ubl.sch 5ded0436, en16931-cii.sch 6b40f87e, codes.toml 6fbe926c";
