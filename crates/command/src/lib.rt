// The command of a row: what makes it 0, and which algorithm gives it.
#![tactic(auto)]

ghost use Rattle.std.specs.Prelude.{◌≡◌};
ghost use Rattle.command.specs.Row.{recovery_of, command_of};

use command_algorithms::{Five, Set};
use gap_runs::Kind;

// Whether a slot goes by the recovery rule: a recovery slot under RPP 1.
// Kept: RPP is a number, and `recovery_of` says of each (settings-other-values) what it does.
#[tactic(auto, unfolding(crate::specs::Row::recovery_of))]
pub fn recovery_rule(rpp: u8, kind: Kind) -> bool
    ensures { result ≡ recovery_of rpp kind }
{
    rpp == 1 && kind == Kind::Recovery
}

// The command of a row. `recovery` is whether the slot goes by the recovery rule: a recovery slot under RPP 1.
// Kept: PCA is a number, and `command_of` says of each (settings-other-values) what it does.
#[tactic(auto, unfolding(crate::specs::Row::command_of))]
pub fn command(
    pca: u8,
    links: u8,
    down: bool,
    recovery: bool,
    row: u32,
    set: Set,
    commands: u8,
) -> i8
    ensures { result ≡ command_of pca links down recovery row set commands }
{
    if down {
        return 0;
    }
    if recovery {
        return command_algorithms::algorithm1(commands, links);
    }
    if pca != 2 {
        return command_algorithms::algorithm1(commands, links);
    }
    let last = command_algorithms::fifth(row);
    if !last {
        return 0;
    }
    if set.spoilt {
        return 0;
    }
    command_algorithms::algorithm2(
        Five {
            a: set.a,
            b: set.b,
            c: set.c,
            d: set.d,
            e: commands as u32,
        },
        links,
    )
}
