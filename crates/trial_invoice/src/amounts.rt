//! Quantities, prices and net amounts of the lines, and their sum.
ghost use Rattle.std.specs.Prelude.{◌≡◌, ◌≤◌, ◌<◌, ◌*◌};
ghost use Rattle.trial_invoice.specs.Amounts as spec;

/// How many units the line of that number asks for.
pub(crate) fn quantity(line: u32) -> u64
    ensures { result ≡ spec.quantity line }
{
    1 + u64::from(line) % 9
}

/// The price of a unit.
pub(crate) fn price(line: u32) -> u64
    ensures { result ≡ spec.price line }
{
    37 * u64::from(line) % 1000 + 1
}

/// What the line comes to.
#[tactic(auto, unfolding(crate::specs::Amounts::net))]
pub(crate) fn net(line: u32) -> u64
    ensures value { result ≡ spec.net line }
    ensures small { result ≤ 9000 }
{
    quantity(line) * price(line)
}

/// What so many lines come to.
pub(crate) fn sum_of_nets(lines: u32) -> u64
    ensures value { result ≡ spec.sum_of_nets lines }
    ensures small { result ≤ 9000 * lines }
{
    let mut sum = 0;
    'lines: for behind in 0..lines {
        sum += net(behind + 1);
    }
    sum
}
