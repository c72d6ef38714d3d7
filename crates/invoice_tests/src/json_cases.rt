//! Invoices as JSON text.

use crate::building::{context_of, push_text};
use crate::texts::{halves, numbers};
use inv_base::MemSink;
use inv_terms::Invoice;
use invoice_json::print_json;
use std::alloc::{AllocError, Global};
use std::test::Fail;
use term_table::term_row;
use test_rows::expect;

/// The entries of an invoice: the row of the term, the numbers of the outer and the inner occurrence, and the text.
const ENTRIES: &str = "\
0 0 0 A1
21 1 0 x \"q\" ß
20 2 0 SUR
21 2 0 y\\z
22 0 0 p
35 1 0 70021
35 2 0 70022
36 1 0 4012345000009
37 1 0 0088
97 1 0 DE1
141 1 0 1
144 1 0 o
152 1 1 1.00
152 1 2 2.00
154 1 2 5
157 1 1 3.00
169 1 0 Pen
176 1 1 Z
177 1 1 TST
141 2 0 2
176 2 1 Y
177 2 1 TST
176 2 2 X
179 2 1 a
180 2 1 b";

const JSON: &str = "\
{
  \"BT-1\": \"A1\",
  \"BG-1\": [
    {
      \"BT-22\": \"x \\\"q\\\" ß\"
    },
    {
      \"BT-21\": \"SUR\",
      \"BT-22\": \"y\\\\z\"
    }
  ],
  \"BT-23\": \"p\",
  \"BT-29\": [
    {
      \"BT-29\": \"70021\"
    },
    {
      \"BT-29\": \"70022\"
    },
    {
      \"BT-29\": \"4012345000009\",
      \"BT-29-1\": \"0088\"
    }
  ],
  \"BG-17\": [
    {
      \"BT-84\": \"DE1\"
    }
  ],
  \"BG-25\": [
    {
      \"BT-126\": \"1\",
      \"BT-128-1\": \"o\",
      \"BG-27\": [
        {
          \"BT-136\": \"1.00\"
        },
        {
          \"BT-136\": \"2.00\",
          \"BT-138\": \"5\"
        }
      ],
      \"BG-28\": [
        {
          \"BT-141\": \"3.00\"
        }
      ],
      \"BT-153\": \"Pen\",
      \"BT-158\": [
        {
          \"BT-158\": \"Z\",
          \"BT-158-1\": \"TST\"
        }
      ]
    },
    {
      \"BT-126\": \"2\",
      \"BT-158\": [
        {
          \"BT-158\": \"Y\",
          \"BT-158-1\": \"TST\"
        },
        {
          \"BT-158\": \"X\"
        }
      ],
      \"BG-32\": [
        {
          \"BT-160\": \"a\",
          \"BT-161\": \"b\"
        }
      ]
    }
  ],
  \"passed_over\": 3
}
";

fn push_line(alloc: Global, invoice: &mut Invoice, line: &'static str) -> Result<(), Fail> {
    let [k, outer, inner, ..] = numbers(line);
    let (_, rest) = halves(line, ' ');
    let (_, rest) = halves(rest, ' ');
    let (_, text) = halves(rest, ' ');
    let row = term_row(k as usize).ok_or(line)?;
    let context = context_of(row.group, outer, inner);
    let answer = push_text(alloc, invoice, k as usize, context, text)?;
    expect(answer == "ok", line)
}

/// Whether an invoice is printed as this text.
pub(crate) fn is_printed(
    alloc: Global,
    invoice: &Invoice,
    passed_over: u32,
    wanted: &str,
) -> Result<bool, AllocError> {
    let mut out = MemSink::new(alloc, 3000)?;
    let failed = print_json(invoice, passed_over, &mut out);
    let same = out.bytes() == wanted.as_bytes();
    drop(out);
    Ok(same & !failed)
}

/// Whether a sink that takes 20 bytes fails behind them.
fn is_cut(alloc: Global, invoice: &Invoice, wanted: &str) -> Result<bool, AllocError> {
    let mut out = MemSink::new(alloc, 20)?;
    let failed = print_json(invoice, 0, &mut out);
    let same = out.bytes() == wanted.as_bytes();
    drop(out);
    Ok(same & failed)
}

fn expect_json(alloc: Global, invoice: &mut Invoice) -> Result<(), Fail> {
    let empty = is_printed(alloc, invoice, 0, "{}\n")?;
    let passed = is_printed(alloc, invoice, 3, "{\n  \"passed_over\": 3\n}\n")?;
    for line in ENTRIES.lines() {
        push_line(alloc, invoice, line)?;
    }
    let whole = is_printed(alloc, invoice, 3, JSON)?;
    let cut = is_cut(alloc, invoice, "{\n  \"BT-1\": \"A1\",\n  ")?;
    expect([empty, passed, whole, cut] == [true; 4], "JSON")
}

#[test]
fn an_invoice_is_one_object(rt: HostRuntime) -> Result<(), Fail> {
    let mut invoice = Invoice::new(rt.alloc())?;
    let held = expect_json(rt.alloc(), &mut invoice);
    drop(invoice);
    held
}
