ghost use Rattle.std.specs.Prelude.{◌≡◌, ◌≢◌, ℕ, List, [], true, Ok, Err, IfOk, IfErr};
ghost use Rattle.extension_files.specs.declared.terms.ExtTerm.{ExtTerm};
ghost use Rattle.extension_files.specs.ExtensionFiles.{file_terms};
ghost use Rattle.extension_files.specs.Extensions.{is_extension};
ghost use Rattle.extension_files.specs.declared.fault.ExtFault.TheVariants.{Memory};

use crate::fault::ExtFault;
use crate::file::{read_document, read_terms};
use crate::terms::ExtTerm;
use inv_base::Many;
use std::alloc::Global;
use std::marker::Model;

/// The terms that a user adds to the semantic model. Contracts see the list of them, by number.
pub struct Extension {
    terms: Many<ExtTerm>,
}

impl Drop for Extension {
    fn drop(self) {
        let Extension { terms } = self;
        drop(terms);
    }
}

impl Model for Extension {
    ghost use Rattle.std.specs.Prelude.{◌≡◌, List, true};
    ghost use Rattle.extension_files.specs.declared.terms.ExtTerm.{ExtTerm};
    ghost use Rattle.extension_files.specs.Extensions.{is_extension};

    ghost Value = { List ExtTerm };

    ghost view = { λ e. e.terms };

    ghost invariant = { λ e. is_extension e.terms ≡ true };
}

impl Extension {
    /// No terms.
    pub fn none(alloc: Global) -> Extension
        ensures { result ≡ [] }
    {
        Extension {
            terms: Many::new(alloc),
        }
    }

    /// The terms of a file: a TOML document with one array of tables `term`, each of which gives a term by its
    /// `number`, its `place`, its `type` and its paths `ubl`, `cn` and `cii`.
    #[tactic(auto, using(crate::proofs::ExtensionLemmas::files))]
    pub fn from_toml(alloc: Global, bytes: &[u8]) -> Result<Extension, ExtFault>
        ensures ok { IfOk result (λ terms. file_terms bytes.now ≡ Ok terms) }
        ensures fault { IfErr result (λ fault. fault ≢ Memory → file_terms bytes.now ≡ Err fault) }
    {
        let document = read_document(alloc, bytes)?;
        match read_terms(alloc, &document) {
            Ok(terms) => {
                drop(document);
                Ok(Extension { terms })
            }
            Err(fault) => {
                drop(document);
                Err(fault)
            }
        }
    }

    /// The terms, by number.
    pub fn terms(&self) -> &[ExtTerm]
        ensures terms { result.now ≡ self.now }
        ensures fine { is_extension self.now ≡ true }
    {
        self.terms.as_slice()
    }
}

/// What a file gives is an extension. The law has no code.
pub fn file_terms_are_extensions()
    ensures { (bytes : List ℕ) (terms : List ExtTerm) → file_terms bytes ≡ Ok terms → is_extension terms ≡ true }
{}
