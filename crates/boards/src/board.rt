// Board kinds: the default mode, whether power can be set, and which modes are admitted.
ghost use Rattle.std.specs.Prelude.{◌≡◌, true, refl};
ghost use Rattle.boards.specs.Boards.{Kind, admitted, wavecard_25, wavecard_500, waveport_915};

/// A kind of board.
pub trait Board {
    /// The mode in which a board of this kind starts.
    const DEFAULT_MODE: u16;
    /// Whether the power of a board of this kind can be set.
    const POWER_SETTABLE: bool;

    // What is fixed about the kind.
    ghost kind: { Kind };

    // The default mode is admitted.
    ghost settled: { admitted kind kind.default_mode ≡ true };

    /// The default mode. A contract cannot name an associated constant by itself, so this call vouches for it.
    // kept: (a) asked of each kind, and no default method, which was tried and proves: for it each kind has to name its constants in ghost members too, which asks more of who writes one.
    fn first_mode(&self) -> u16
        ensures mode { result ≡ kind.default_mode };

    /// Whether power can be set, vouched for likewise.
    fn lets_power_be_set(&self) -> bool
        ensures settable { result ≡ kind.power_settable };

    /// Whether the kind admits a mode.
    fn admits(&self, mode: u16) -> bool
        ensures admits { result ≡ admitted kind mode };
}

/// The WaveCard of 25 mW.
#[derive(Clone, Copy)]
pub struct WaveCard25;

/// The WaveCard of 500 mW.
#[derive(Clone, Copy)]
pub struct WaveCard500;

/// The Waveport CF at 915 MHz.
#[derive(Clone, Copy)]
pub struct Waveport915;

// Whether a WaveCard of either power admits a mode.
// kept: (c) tried: a constant MODES and one `admits` in the trait; the ghost of a constant slice asks each kind for its pointer, so `MODES` is not admitted.
fn wavecard_admits(mode: u16) -> bool
    ensures admits { result ≡ admitted wavecard_25 mode }
{
    matches!(mode, 0x0012 | 0x0094 | 0x00A2 | 0x00A3 | 0x00B3 | 0x00B6)
}

impl Board for WaveCard25 {
    const DEFAULT_MODE: u16 = 0x00A3;

    const POWER_SETTABLE: bool = true;

    ghost kind = { wavecard_25 };

    ghost settled = { refl };

    fn first_mode(&self) -> u16 {
        Self::DEFAULT_MODE
    }

    fn lets_power_be_set(&self) -> bool {
        Self::POWER_SETTABLE
    }

    fn admits(&self, mode: u16) -> bool {
        wavecard_admits(mode)
    }
}

impl Board for WaveCard500 {
    const DEFAULT_MODE: u16 = 0x00B6;

    const POWER_SETTABLE: bool = false;

    ghost kind = { wavecard_500 };

    ghost settled = { refl };

    fn first_mode(&self) -> u16 {
        Self::DEFAULT_MODE
    }

    fn lets_power_be_set(&self) -> bool {
        Self::POWER_SETTABLE
    }

    fn admits(&self, mode: u16) -> bool {
        wavecard_admits(mode)
    }
}

impl Board for Waveport915 {
    const DEFAULT_MODE: u16 = 0x00B9;

    const POWER_SETTABLE: bool = true;

    ghost kind = { waveport_915 };

    ghost settled = { refl };

    fn first_mode(&self) -> u16 {
        Self::DEFAULT_MODE
    }

    fn lets_power_be_set(&self) -> bool {
        Self::POWER_SETTABLE
    }

    fn admits(&self, mode: u16) -> bool {
        mode == Self::DEFAULT_MODE
    }
}

/// Asked twice about a mode, a kind tells the same.
pub fn tells_the_same<B: Board>(board: &B, mode: u16) -> bool
    ensures same { result ≡ true }
{
    board.admits(mode) == board.admits(mode)
}

/// A kind admits its default mode.
pub fn default_is_admitted<B: Board>(board: &B) -> bool
    ensures admitted { result ≡ true }
{
    board.admits(board.first_mode())
}
