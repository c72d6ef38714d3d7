/// What `--help` prints.
pub const HELP: &[u8] = b"usage: einv COMMAND [OPTION ..] FILE

Checks, lists, converts and queries e-invoices (EN 16931) in UBL 2.1 and CII.

see whether an invoice is right, and what is wrong with it
  einv validate [--svrl | --json] [--codes LISTS] [--extension TERMS] FILE
      tells all faults of its terms, elements that hold no term, values that
      nobody reads, elements out of order, and broken rules of EN 16931, with
      line and column; the rules are built in
      --svrl          the report in SVRL, the XML of Schematron reports
      --json          the report as JSON

read an invoice
  einv show [--json] [--codes LISTS] [--extension TERMS] FILE
      lists its business terms, a line each
      --json          the terms as JSON; repeated groups are arrays
  einv totals [--json] [--codes LISTS] [--extension TERMS] FILE
      lists each total that isn't what the other values make of it
      --json          the differences as JSON
  einv view [--codes LISTS] [--extension TERMS] FILE
      writes it as a page of HTML that people read, with the meaning of codes
      and the totals that differ

check any XML document by rules of your own
  einv check [OPTION ..] --rules RULES [--rules RULES ..] FILE
      reports what Schematron rule files find, a line each, and counts it
      --rules RULES   a rule file; up to 16 may be named
      --phase PHASE   a phase that each rule file has, or #ALL or #DEFAULT
      --svrl          the report in SVRL
      --json          the report as JSON

change the syntax of an invoice
  einv convert --to ubl [--whole] [--codes LISTS] [--extension TERMS] FILE
  einv convert --to cii [--whole] [--codes LISTS] [--extension TERMS] FILE
      writes it in UBL or in CII
      --whole         only where nothing of FILE would be lost

take out what is attached
  einv extract K FILE
      writes the K-th attached document, from 1

look at any XML document
  einv query EXPR FILE
      prints the value of an XPath expression, a line for each item
  einv outline FILE
      prints a line for each element, attribute and text

try the whole tool on this machine
  einv try N
      makes an invoice of N lines, 1 to 10000, writes and reads it in UBL and
      in CII, compares what was read, checks it, and prints what came of it

--codes LISTS is a TOML file of code lists. A list that isn't in it, and isn't
built in, allows every code. Without it validate goes by currencies, countries
and media types that are built in. --extension TERMS is a TOML file of
extension terms, EXT-1 to EXT-99, with the places of their elements. Options
stand before FILE, in any order. A word that begins with -- is never a file;
./--name is one. - in place of a file is standard input.

einv --help prints this page, einv --version the version and that of the rules.

status
  0  done
  1  validate or check found something fatal, or totals a difference
  2  the words fit no command
  3  the document is refused
  4  rules, code lists, extension terms, a phase or an expression are refused
  5  the syntax can't carry the invoice, something would be lost with --whole,
     or there is no such attached document
  6  a file couldn't be opened or read
  7  standard output couldn't be written
  8  memory ran out
With 2 to 6 one line on standard error says why, and nothing else is written.
";

/// What `--version` prints, before it says which rules are built in.
pub const VERSION: &[u8] = b"einv 0.1.0\n";
