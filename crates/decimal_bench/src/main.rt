//! Measures decimal arithmetic: `decimal_bench CALL COUNT` makes that many calls and prints a
//! checksum. `bench/decimal.sh` times it.
#![tactic(auto)]

ghost use Rattle.std.specs.Prelude.{◌≡◌, ◌<◌, length};

use inv_decimal::Dec;
use std::cmp::Ordering;
use std::{env, io};

const TEXTS: [&str; 8] = [
    "1234.56",
    "-0.19",
    "99999.95",
    "7",
    "-12345678.123456",
    "0.000001",
    "3.333333",
    "-100",
];

/// The number in the table that the step takes, and zero where the table has no number.
fn pick(numbers: &[Dec; 8], step: u32) -> Dec {
    numbers[(step % 8) as usize]
}

/// One for a result below zero, two for another, none for a fault.
fn weight<E: Drop>(outcome: Result<Dec, E>, zero: &Dec) -> u64 {
    match outcome {
        Ok(number) if number.cmp(zero) == Ordering::Less => 1,
        Ok(_) => 2,
        Err(_) => 0,
    }
}

fn one_call(call: &str, numbers: &[Dec; 8], zero: &Dec, step: u32) -> u64 {
    let x = pick(numbers, step);
    let y = pick(numbers, step / 8);
    match call {
        "add" => weight(x.add(&y), zero),
        "mul" => weight(x.mul(&y), zero),
        "div" => weight(x.div(&y), zero),
        "read" => u64::from(Dec::read(TEXTS[(step % 8) as usize]).is_some()),
        "print" => {
            let mut buf = [0; 40];
            let len = x.print(&mut buf);
            (len as u64).wrapping_add(u64::from(buf[len / 2]))
        }
        _ => 0,
    }
}

fn many_calls(call: &str, numbers: &[Dec; 8], zero: &Dec, count: u32) -> u64 {
    let mut sum = 0u64;
    for step in 0..count {
        sum = sum.wrapping_add(one_call(call, numbers, zero, step));
    }
    sum
}

fn table() -> Option<[Dec; 8]> {
    let zero = Dec::read("0")?;
    let mut numbers = [zero; 8];
    for (slot, text) in numbers.iter_mut().zip(TEXTS) {
        *slot = Dec::read(text)?;
    }
    Some(numbers)
}

fn main(rt: HostRuntime) -> io::Result<()> {
    let mut words = env::args(&rt)?.skip(1);
    let (Some(call), Some(count), Some(numbers), Some(zero)) = (
        words.next(),
        words.next(),
        table(),
        Dec::read("0"),
    ) else {
        return println!(rt; "decimal_bench add|mul|div|read|print COUNT");
    };
    let count = count.as_str().parse::<u32>().unwrap_or(0);
    let sum = many_calls(call.as_str(), &numbers, &zero, count);
    println!(rt; "{sum}")
}
