ghost use Rattle.std.specs.Prelude.{◌≡◌, ◌≢◌, Ok, Err, IfOk, IfErr, chars, option_map};
ghost use Rattle.code_lists.specs.CodeFiles.{built_in_lists, category_codes, point_codes, file_lists, codes_of, allows};
ghost use Rattle.code_lists.specs.declared.fault.ListFault.TheVariants.{Memory};

use crate::codes::Codes;
use crate::fault::ListFault;
use crate::file::{lists_of, read_document, read_lists};
use crate::names::List;
use inv_base::Txt;
use std::alloc::{AllocError, Global};
use std::marker::Model;

/// The codes of the lists that are built in or were given. Contracts see each list with its codes, the
/// built-in ones first.
pub struct CodeLists {
    lists: Vec<(List, Codes)>,
}

impl Drop for CodeLists {
    fn drop(self) {
        let CodeLists { lists } = self;
        drop(lists);
    }
}

impl Model for CodeLists {
    ghost use Rattle.std.specs.Prelude.{List, ℕ};
    ghost use Rattle.code_lists.specs.declared.names.List.{List as CodeList};

    ghost Value = { List (CodeList × List (List ℕ)) };

    ghost view = { λ l. l.lists.items };
}

impl CodeLists {
    /// The lists `category` and `point` alone.
    pub fn built_in(alloc: Global) -> Result<CodeLists, AllocError>
        ensures { IfOk result (λ lists. lists ≡ built_in_lists) }
    {
        let mut lists = Vec::new(alloc);
        lists.push((List::Category, categories(alloc)?))?;
        lists.push((List::Point, points(alloc)?))?;
        Ok(CodeLists { lists })
    }

    /// The built-in lists and those of a file: a TOML document with one table `lists`, in which each key is the
    /// name of a list that isn't built in, and its value an array of codes.
    pub fn from_toml(alloc: Global, bytes: &[u8]) -> Result<CodeLists, ListFault>
        ensures ok { IfOk result (λ lists. file_lists bytes.now ≡ Ok lists) }
        ensures fault { IfErr result (λ fault. fault ≢ Memory → file_lists bytes.now ≡ Err fault) }
    {
        let document = read_document(alloc, bytes)?;
        let lists = match lists_of(&document) {
            Ok(lists) => lists,
            Err(key) => return Err(ListFault::NotALists(Txt::of(alloc, key)?)),
        };
        let mut found = CodeLists::built_in(alloc)?;
        read_lists(alloc, lists, &mut found.lists)?;
        Ok(found)
    }

    /// Whether the list has the code. A list that wasn't given has every code.
    pub fn allows(&self, list: List, code: &str) -> bool
        ensures { result ≡ allows self.now list (chars code.now) }
    {
        match self.codes_of(list) {
            Some(codes) => codes.has(code),
            None => true,
        }
    }

    fn codes_of(&self, list: List) -> Option<&Codes>
        ensures { option_map (λ codes. codes.now) result ≡ codes_of self.now list }
    {
        let lists = &self.lists;
        'lists: for (given, codes) in lists {
            if *given == list {
                return Some(codes);
            }
        }
        None
    }
}

// The categories of value added tax that EN 16931-1 has of UNTDID 5305.
fn categories(alloc: Global) -> Result<Codes, AllocError>
    ensures { IfOk result (λ found. found ≡ category_codes) }
{
    Codes::of(alloc, &["S", "Z", "E", "AE", "K", "G", "O", "L", "M", "B"])
}

// The points at which value added tax is due that EN 16931-1 has of UNTDID 2005.
fn points(alloc: Global) -> Result<Codes, AllocError>
    ensures { IfOk result (λ found. found ≡ point_codes) }
{
    Codes::of(alloc, &["3", "35", "432"])
}
