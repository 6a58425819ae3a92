//! What the last scan left.
ghost use Rattle.std.specs.Prelude.{◌≡◌, ◌≤◌};
ghost use Rattle.object_cache.specs.Modes.{mode_next};

use kmem_model::Mode;

// The greatest numerator.
const EIGHTHS: u32 = 8;

#[derive(Clone, Copy)]
pub struct Scan {
    pub mode: Mode,
    // A mild scan takes slabs of which fewer than this many eighths are out.
    pub numerator: u32,
    pub found_fragmented: bool,
    // Whether a move was begun since.
    pub begun: bool,
}

impl Scan {
    ghost use Rattle.object_cache.specs.Scans.{scan_next, numerator_next};

    /// What a further scan leaves: a desperate one, a mild one, or neither.
    pub fn next(&self, desperate: bool, mild: bool) -> Scan
        requires { (1 ≤ self.now.numerator) × (self.now.numerator ≤ 8) }
        ensures { result ≡ scan_next self.now desperate mild }
    {
        Scan {
            mode: mode_of(desperate, mild),
            numerator: self.numerator_after(desperate || mild),
            found_fragmented: mild,
            begun: false,
        }
    }

    // It grows where the last scan was mild and began no move, and falls by a scan that may ask nothing.
    fn numerator_after(&self, may_ask: bool) -> u32
        requires { (1 ≤ self.now.numerator) × (self.now.numerator ≤ 8) }
        ensures { result ≡ numerator_next self.now may_ask }
    {
        let mut numerator = self.numerator;
        if self.found_fragmented && !self.begun {
            numerator = EIGHTHS.min(numerator + 1);
        }
        if may_ask {
            numerator
        } else {
            1.max(numerator - 1)
        }
    }
}

fn mode_of(desperate: bool, mild: bool) -> Mode
    ensures { result ≡ mode_next desperate mild }
{
    if desperate {
        Mode::Desperate
    } else if mild {
        Mode::Mild
    } else {
        Mode::Off
    }
}
