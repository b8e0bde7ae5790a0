//! The commands by their names.

ghost use Rattle.std.specs.Prelude.{◌≡◌};
ghost use Rattle.tcl_model.specs.NamedCommands.{named};

use source_types::CommandName;

/// The command of a name.
#[tactic(auto, unfolding(tcl_model::specs::NamedCommands::named))]
pub fn command_name(name: &str) -> CommandName
    ensures { result ≡ named name.now }
{
    if name == "set" {
        return CommandName::Set;
    }
    if name == "list" {
        return CommandName::List;
    }
    if name == "concat" {
        return CommandName::Concat;
    }
    if name == "lindex" {
        return CommandName::Lindex;
    }
    if name == "llength" {
        return CommandName::Llength;
    }
    if name == "expr" {
        return CommandName::Expr;
    }
    if name == "foreach" {
        return CommandName::Foreach;
    }
    if name == "if" {
        return CommandName::If;
    }
    CommandName::Other
}
