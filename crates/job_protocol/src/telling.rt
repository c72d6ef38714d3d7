ghost use Rattle.job_protocol.specs.Outside.{TakesOrFails};
ghost use Rattle.job_protocol.specs.Lines.{bad_word_line, read_fault_line, document_line, kind_text, load_line, load_kind_text, load_end_text, list_line};
ghost use Rattle.job_protocol.specs.Lines.{list_fault_text, too_long_line};
ghost use Rattle.inv_base.specs.Printing.{Prints};
ghost use Rattle.std.specs.Prelude.{◌≡◌};

use code_lists::ListFault;
use inv_base::{Place, Printer, Sink};
use itoa::Buffer;
use rule_library::LoadKind;
use xml_state::XmlFault;
use xml_tokens::XmlKind;

/// Tells which word fits no command.
pub fn tell_bad_word<E: Sink>(number: u64, err: &mut E)
    ensures { TakesOrFails (bad_word_line number) (E.view err.old) (E.view err.new) }
{
    let mut digits = Buffer::new();
    let mut printer = Printer::new();
    printer.put(err, b"einv: bad word ");
    printer.put(err, digits.format(number).as_bytes());
    printer.put(err, b"\n");
}

/// Tells that a file couldn't be read.
pub fn tell_read_fault<E: Sink>(file: &str, err: &mut E)
    ensures { TakesOrFails (read_fault_line file.now) (E.view err.old) (E.view err.new) }
{
    let mut printer = Printer::new();
    printer.put(err, b"einv: ");
    printer.put(err, file.as_bytes());
    printer.put(err, b": read fault\n");
}

/// Tells why and where a document is refused.
pub fn tell_document_fault<E: Sink>(file: &str, fault: &XmlFault, err: &mut E)
    ensures { TakesOrFails (document_line file.now fault.now) (E.view err.old) (E.view err.new) }
{
    let mut digits = Buffer::new();
    let mut printer = Printer::new();
    printer.put(err, b"einv: ");
    printer.put(err, file.as_bytes());
    printer.put(err, b": ");
    printer.put(err, kind_name(fault.kind).as_bytes());
    printer.put(err, b" at ");
    printer.put(err, digits.format(fault.place.byte).as_bytes());
    printer.put(err, b"\n");
}

/// Tells why and where a rule file or a part that it takes of another file is refused.
pub(crate) fn tell_load_fault<E: Sink>(file: &str, kind: LoadKind, place: Place, err: &mut E)
    ensures { TakesOrFails (load_line (record { kind = kind; file = file.now; place = place.byte })) (E.view err.old) (E.view err.new) }
{
    let mut digits = Buffer::new();
    let mut printer = Printer::new();
    printer.put(err, b"einv: ");
    printer.put(err, file.as_bytes());
    printer.put(err, b": ");
    printer.put(err, load_kind_name(kind).as_bytes());
    printer.put(err, b" at ");
    printer.put(err, digits.format(place.byte).as_bytes());
    printer.put(err, load_end(kind).as_bytes());
}

/// Tells that a file of code lists is too long.
pub fn tell_too_long<E: Sink>(file: &str, err: &mut E)
    ensures { TakesOrFails (too_long_line file.now) (E.view err.old) (E.view err.new) }
{
    let mut printer = Printer::new();
    printer.put(err, b"einv: ");
    printer.put(err, file.as_bytes());
    printer.put(err, b": TooLong\n");
}

/// Tells why a file is none of code lists.
pub fn tell_list_fault<E: Sink>(file: &str, fault: &ListFault, err: &mut E)
    ensures { TakesOrFails (list_line file.now fault.now) (E.view err.old) (E.view err.new) }
{
    let mut printer = Printer::new();
    printer.put(err, b"einv: ");
    printer.put(err, file.as_bytes());
    printer.put(err, b": ");
    print_list_fault(fault, &mut printer, err);
    printer.put(err, b"\n");
}

/// Prints a fault of code lists, with the key at which it stands.
fn print_list_fault<E: Sink>(fault: &ListFault, printer: &mut Printer, err: &mut E)
    ensures { Prints (list_fault_text fault.now) printer.old.failed printer.new.failed (E.view err.old) (E.view err.new) }
{
    match fault {
        ListFault::NotToml => printer.put(err, b"NotToml"),
        ListFault::NotALists(key) => {
            printer.put(err, b"NotALists ");
            printer.put(err, key.as_str().as_bytes());
        }
        ListFault::BadCode(key) => {
            printer.put(err, b"BadCode ");
            printer.put(err, key.as_str().as_bytes());
        }
        ListFault::Memory => printer.put(err, b"Memory"),
    }
}

/// The name of a kind of fault of a rule file or of a part.
fn load_kind_name(kind: LoadKind) -> &'static str
    ensures { result.now ≡ load_kind_text kind }
{
    match kind {
        LoadKind::Read => "Read",
        LoadKind::Xml(kind) => kind_name(kind),
        LoadKind::BadHref => "BadHref",
        LoadKind::IncludeCycle => "IncludeCycle",
        LoadKind::TooManyFiles => "TooManyFiles",
        LoadKind::NotSame => "NotSame",
        LoadKind::TooDeep => "TooDeep",
        LoadKind::TooManyNodes => "TooManyNodes",
        LoadKind::TooManyNames => "TooManyNames",
        LoadKind::Memory => "Memory",
    }
}

/// How the line of a fault of a rule file or of a part ends: with the attribute of the element that asks for a part.
fn load_end(kind: LoadKind) -> &'static str
    ensures { result.now ≡ load_end_text kind }
{
    match kind {
        LoadKind::Read | LoadKind::Xml(_) | LoadKind::Memory => "\n",
        LoadKind::BadHref | LoadKind::IncludeCycle | LoadKind::TooManyFiles | LoadKind::NotSame =>
            " href\n",
        LoadKind::TooDeep | LoadKind::TooManyNodes | LoadKind::TooManyNames => " -\n",
    }
}

/// The name of a kind of fault.
fn kind_name(kind: XmlKind) -> &'static str
    ensures { result.now ≡ kind_text kind }
{
    match kind {
        XmlKind::TagTooLong => "TagTooLong",
        XmlKind::NotUtf8 => "NotUtf8",
        XmlKind::BadChar => "BadChar",
        XmlKind::Doctype => "Doctype",
        XmlKind::BadDeclaration => "BadDeclaration",
        XmlKind::BadMarkup => "BadMarkup",
        XmlKind::BadReference => "BadReference",
        XmlKind::TextOutside => "TextOutside",
        XmlKind::TooManyAttributes => "TooManyAttributes",
        XmlKind::NameTooLong => "NameTooLong",
        XmlKind::Mismatched => "Mismatched",
        XmlKind::SecondRoot => "SecondRoot",
        XmlKind::BadNamespace => "BadNamespace",
        XmlKind::UndeclaredPrefix => "UndeclaredPrefix",
        XmlKind::DuplicateAttribute => "DuplicateAttribute",
        XmlKind::TooDeep => "TooDeep",
        XmlKind::TooManyNames => "TooManyNames",
        XmlKind::TooManyNodes => "TooManyNodes",
        XmlKind::TooLong => "TooLong",
        XmlKind::Truncated => "Truncated",
        XmlKind::NoRoot => "NoRoot",
        XmlKind::Memory => "Memory",
    }
}
