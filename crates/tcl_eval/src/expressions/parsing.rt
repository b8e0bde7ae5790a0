//! Expressions, parsed.

ghost use Rattle.sdc_base.specs.Gives.{Meets};
ghost use Rattle.tcl_model.specs.ExpressionSteps.{ParsesTo};

use crate::expressions::lexed::Lexed;
use crate::expressions::reading::Reading;
use crate::expressions::tokens::token_at;
use sdc_base::Stop;
use source_types::{Expression, TclKind};
use std::alloc::Global;

/// The expression that a text is (Tcl): operands, parentheses, and operators from `||`, the weakest, over `&&`,
/// `== != eq ne`, `< <= > >=`, `+ -` to `* / %` and the unary `- + !`. Refused as `BadExpr` where the text has not this
/// form. Nothing in it is run; the levels of its parentheses are told, and not limited.
#[tactic(auto, using(crate::proofs::ParseFacts::so_far_none, crate::proofs::ParseFacts::so_far_more, crate::proofs::ParseFacts::so_far_refused, crate::proofs::ParseFacts::so_far_unended, crate::proofs::ParseFacts::so_far_ended))]
pub fn parse_expression(alloc: Global, text: &str) -> Result<Expression, Stop<TclKind>>
    ensures { Meets result (ParsesTo text.now) }
{
    let mut reading = Reading::nothing(alloc);
    let mut at = 0;
    while let Some(Lexed { token, end }) = token_at(alloc, text, at)? {
        let Some(next) = reading.step(token)? else {
            return Err(Stop::Refused(TclKind::BadExpr));
        };
        reading = next;
        at = end;
    }
    match reading.ended()? {
        Some(expression) => Ok(expression),
        None => Err(Stop::Refused(TclKind::BadExpr)),
    }
}
