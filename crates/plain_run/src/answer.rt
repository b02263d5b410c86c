ghost use Rattle.std.specs.Prelude.{◌≡◌};
ghost use Rattle.pool_model.specs.Plain.{reply_of};
ghost use Rattle.pool_model.specs.Command.{is_fault};

use pool_model::{CommandAnswer, FreeAnswer, ReadAnswer, WriteAnswer};
use std::marker::Model;

/// What a command answered.
#[derive(Drop)]
pub struct PlainAnswer {
    pub answer: CommandAnswer,
}

impl Model for PlainAnswer {
    ghost use Rattle.pool_model.specs.Plain.{Reply, reply_of};

    ghost Value = { Reply };

    ghost view = { λ answer. reply_of answer.answer };
}

/// Whether a read of the device failed.
pub fn is_fault(answer: &CommandAnswer) -> bool
    ensures { result ≡ is_fault (reply_of answer.now) }
{
    match answer {
        CommandAnswer::Write(WriteAnswer::Fault) => true,
        CommandAnswer::Write(_) => false,
        CommandAnswer::Free(FreeAnswer::Fault) => true,
        CommandAnswer::Free(_) => false,
        CommandAnswer::Read(ReadAnswer::Fault) => true,
        CommandAnswer::Read(_) => false,
    }
}
