// The access checks, 01's 2 to 5: a checked access, and whether a stored value fits its width.
#![tactic(auto)]

ghost use Rattle.std.specs.Prelude.{◌≡◌, ◌^◌, ltb};
ghost use Rattle.rules.specs.Calls.{width_allowed, passes, access_checks};
ghost use Rattle.rules.specs.RefusalNumbers.{numbered};
ghost use Rattle.access.specs.AccessChecks.{sized, checked_access};

use rules::Refusal;

// An access that passed checks 2, 3 and 4.
#[derive(Clone, Copy, PartialEq, Eq)]
pub struct Access {
    pub address: u32,
    pub width: u32,
}

// "Widths are 1, 2 or 4."
pub fn width_allowed(width: u32) -> bool
    ensures { result ≡ width_allowed width }
{
    matches!(width, 1 | 2 | 4)
}

// Checks 2, 3 and 4, in this order, of an access to a memory of so many bytes: the checked access, or its refusal.
pub fn check_access(address: u32, width: u32, size: u32) -> Result<Access, Refusal>
    ensures { numbered result ≡ checked_access size address width }
{
    if !width_allowed(width) {
        return Err(Refusal::BadWidth);
    }
    if address % width != 0 {
        return Err(Refusal::Misaligned);
    }
    if size < width || size - width < address {
        return Err(Refusal::OutsideMemory);
    }
    Ok(Access { address, width })
}

// Whether checks 2, 3 and 4 pass.
pub fn access_passes(address: u32, width: u32, size: u32) -> bool
    ensures { result ≡ passes (access_checks (sized size) address width) }
{
    check_access(address, width, size).is_ok()
}

// Whether check 5 passes: the value is below 256 to the power width, of any width.
pub fn value_fits(value: u32, width: u32) -> bool
    ensures { result ≡ ltb value (256 ^ width) }
{
    4 <= width || value < 256_u32.pow(width)
}
