ghost use Rattle.std.specs.Prelude.{◌≡◌};
ghost use Rattle.table_state.specs.SealForms.{mode_in};
ghost use Rattle.table_state.specs.Spelling.{mode_byte};
ghost use Rattle.pool_model.specs.declared.commands.Mode.{Mode};

use pool_model::Mode;

/// The mode that a lane's byte says. Each byte above 1 says `Verify`; a seal of the form has none above 2.
pub fn mode_of(byte: u8) -> Mode
    ensures { result ≡ mode_in byte }
{
    match byte {
        0 => Mode::Off,
        1 => Mode::On,
        _ => Mode::Verify,
    }
}

/// The byte that says a lane's mode.
pub fn byte_of(mode: Mode) -> u8
    ensures { result ≡ mode_byte mode }
{
    match mode {
        Mode::Off => 0,
        Mode::On => 1,
        Mode::Verify => 2,
    }
}
