//! Numbers as words write them.

ghost use Rattle.std.specs.Prelude.{◌≡◌, ◌<◌, ◌≤◌, ◌%◌, IfSome};
ghost use Rattle.swi_command.specs.CommandLine.{number, number_in};

/// The number that the text writes by 1 to 19 decimal digits.
fn read_number(text: &str) -> Option<u64>
    ensures { result ≡ number text.now }
{
    // `parse` takes a leading plus.
    if text.is_empty() || text.len() > 19 || text.starts_with('+') {
        return None;
    }
    text.parse::<u64>().ok()
}

/// The numbers that an argument takes.
#[derive(Clone, Copy)]
pub struct NumberRule {
    pub least: u64,
    pub most: u64,
    /// The number of which each is a multiple.
    pub unit: u64,
}

/// The number that the text writes, where the rule takes it.
pub fn read_number_in(text: &str, rule: NumberRule) -> Option<u64>
    requires { 0 < rule.unit }
    ensures value { result ≡ number_in rule.least rule.most rule.unit text.now }
    ensures least { IfSome result (λ n. rule.least ≤ n) }
    ensures most { IfSome result (λ n. n ≤ rule.most) }
    ensures aligned { IfSome result (λ n. n % rule.unit ≡ 0) }
{
    match read_number(text) {
        Some(number) if (rule.least..=rule.most).contains(&number) && number % rule.unit == 0 => {
            Some(number)
        }
        _ => None,
    }
}
