// How a severity acts.
ghost use Rattle.std.specs.Prelude.{◌≡◌};
ghost use Rattle.settings.specs.Severity.{acting, severity_invalid};

// The highest severity that acts as it is.
const HIGHEST: u32 = 1000;

// The first of the numbers that stand for negative DINTs.
const NEGATIVE: u32 = 0x8000_0000;

// A DINT below 1 acts as 1, above 1000 as 1000.
#[tactic(auto, unfolding(crate::specs::Severity::acting))]
pub fn acting_severity(s: u32) -> u16
    ensures { result ≡ acting s }
{
    match s {
        0 | NEGATIVE.. => 1,
        // `as` narrows what the arm has bounded
        1..=HIGHEST => s as u16,
        _ => 1000,
    }
}

pub fn is_invalid(s: u32) -> bool
    ensures { result ≡ severity_invalid s }
{
    !matches!(s, 1..=HIGHEST)
}
