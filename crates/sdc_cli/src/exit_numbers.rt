//! What a shell sees of a run.

ghost use Rattle.std.specs.Prelude.{◌≡◌};
ghost use Rattle.sdc_cli.specs.ExitNumbers.{exit_of};

use sdc_model::Status;

/// The number that the tool exits with after an answer of a run; only 0 says that all was well. The
/// numbers are this project's own.
pub fn exit_number(status: &Status) -> u8
    ensures { result ≡ exit_of status.now }
{
    match status {
        Status::Done => 0,
        Status::Findings => 1,
        Status::Usage => 2,
        Status::Source(_) => 3,
        Status::Loop(_) => 4,
        Status::Conflict { .. } => 5,
        Status::Budget(_) => 6,
        Status::ReadFault(_) => 7,
        Status::WriteFault => 8,
        Status::NoMemory => 9,
        Status::TooLarge(_) => 10,
    }
}

#[cfg(test)]
mod tests {
    use super::*;
    use pin_types::Pin;
    use sdc_base::List;
    use source_types::{Fault, Kind, SdcKind};
    use timing_types::Cycle;

    #[test]
    fn exit_numbers_of_all_answers(rt: HostRuntime) {
        let fault = Fault {
            file: 1,
            line: 3,
            kind: Kind::Sdc(SdcKind::OutOfProfile),
        };
        let cycle = Cycle {
            nodes: List::new(rt.alloc()),
        };
        let conflict = Status::Conflict {
            pin: Pin(7),
            source_mode: 0,
            passing_mode: 1,
        };
        for (status, number) in [
            (Status::Done, 0),
            (Status::Findings, 1),
            (Status::Usage, 2),
            (Status::Source(fault), 3),
            (Status::Loop(cycle), 4),
            (conflict, 5),
            (Status::Budget(9), 6),
            (Status::ReadFault(1), 7),
            (Status::WriteFault, 8),
            (Status::NoMemory, 9),
            (Status::TooLarge(268_435_457), 10),
        ] {
            assert_eq!(rt; exit_number(&status), number, "{status:?}");
        }
    }
}
