// The texts of switches.
ghost use Rattle.std.specs.Prelude.{◌≡◌, ◌≤◌, length, map, option_map, IfOk, Ok};
ghost use Rattle.pipe_text_plan.specs.Refused.{RefusesLike};
ghost use Rattle.pipe_text_plan.specs.Switch.{level_of, switch_of, switches_of};

use crate::fault::{PlanError, PlanFault};
use crate::name::is_name;
use crate::space::around_space;
use pipe_text::read_number;
use std::alloc::Global;

// A name, one space and a level from 1 to 15.
fn switch_of(text: &str) -> Option<(&str, u8)>
    ensures { option_map (λ switch. (switch.0.now, switch.1)) result ≡ switch_of text.now }
{
    let (name, word) = around_space(text)?;
    if !is_name(name) {
        return None;
    }
    Some((name, level_of(word)?))
}

fn level_of(word: &str) -> Option<u8>
    ensures { result ≡ level_of word.now }
{
    match read_number(word.as_bytes(), 15) {
        Some(0) | None => None,
        Some(level) => Some(level as u8),
    }
}

// The switches' names and levels.
pub fn switches_of<'a>(alloc: Global, texts: &[&'a str]) -> Result<Vec<(&'a str, u8)>, PlanError>
    requires { length texts.now ≤ 32767 }
    ensures ok { IfOk result (λ switches. switches_of (map (λ text. text.now) texts.now)
        ≡ Ok (map (λ switch. (switch.0.now, switch.1)) switches.items)) }
    ensures fault { RefusesLike result (switches_of (map (λ text. text.now) texts.now)) }
{
    let mut switches = Vec::new(alloc);
    'texts: for text in texts {
        let Some(switch) = switch_of(text) else {
            let at = switches.len() as u16;
            return Err(PlanError::Plan(PlanFault::SwitchText { at }));
        };
        switches.push(switch)?;
    }
    Ok(switches)
}
