//! The reports of a search.
ghost use Rattle.std.specs.Prelude.{◌≡◌, ◌<◌, [], ◌∷◌, ◌++◌, true, codes, length, IfOk, OnOk};
ghost use Rattle.std.specs.List.{list_all, All};
ghost use Rattle.wrp_town.specs.Arcs.{arc_of, is_legal};
ghost use Rattle.wrp_report.specs.Texts.{text_of, head_lines, summary_lines, report_lines, visit_lines, turns_lines, walk_lines, base_lines, found_lines, unless_infeasible, is_infeasible as is_end_infeasible, counts_line as line_of_counts};

use crate::answer::Answer;
use crate::lines::{
    bans_line, base_line, counts_line, end_text, push_line, step_line, steps_line, stops_line,
    town_line,
};
use std::alloc::{AllocError, Global};
use wrp_rules::End;
use wrp_town::{Step, Town};

/// The report of an answer without its walk.
///
/// # Errors
///
/// Want of memory alone.
pub fn summary(alloc: Global, town: &Town, answer: &Answer) -> Result<Vec<u8>, AllocError>
    ensures { IfOk result (λ text. text.items ≡ text_of (summary_lines town.now answer.now)) }
{
    let mut text = head(alloc, town, answer)?;
    push_counts(alloc, &mut text, answer)?;
    Ok(text)
}

/// The report of an answer: its end, the town, the numbers of the search and the walk, of which the
/// last two are left out where no tour exists.
///
/// # Errors
///
/// Want of memory alone.
pub fn report(alloc: Global, town: &Town, answer: &Answer) -> Result<Vec<u8>, AllocError>
    requires { list_all (λ step. is_legal town.now (arc_of step)) answer.now.steps ≡ true }
    ensures { IfOk result (λ text. text.items ≡ text_of (report_lines town.now answer.now)) }
{
    let mut text = head(alloc, town, answer)?;
    push_found(alloc, &mut text, town, answer, &[])?;
    Ok(text)
}

/// The report of a visit of stops, whose steps are those of the town that are left of the walk. Where
/// none is left and there is a stop, the first stop is the base.
///
/// # Errors
///
/// Want of memory alone.
pub fn visit_report(
    alloc: Global,
    town: &Town,
    answer: &Answer,
    stops: &[u32],
) -> Result<Vec<u8>, AllocError>
    requires steps { list_all (λ step. is_legal town.now (arc_of step)) answer.now.steps ≡ true }
    requires stops { All (λ j. j < length town.now.junctions) stops.now }
    ensures { IfOk result (λ text. text.items
        ≡ text_of (visit_lines town.now answer.now stops.now)) }
{
    let mut text = head(alloc, town, answer)?;
    push_line(&mut text, stops_line(alloc, stops.len())?.as_bytes())?;
    push_found(alloc, &mut text, town, answer, stops)?;
    Ok(text)
}

/// The report under a number of banned turns, whose steps are those of the town.
///
/// # Errors
///
/// Want of memory alone.
pub fn turns_report(
    alloc: Global,
    town: &Town,
    answer: &Answer,
    bans: usize,
) -> Result<Vec<u8>, AllocError>
    requires { list_all (λ step. is_legal town.now (arc_of step)) answer.now.steps ≡ true }
    ensures { IfOk result (λ text. text.items
        ≡ text_of (turns_lines town.now answer.now bans)) }
{
    let mut text = head(alloc, town, answer)?;
    push_line(&mut text, bans_line(alloc, bans)?.as_bytes())?;
    push_found(alloc, &mut text, town, answer, &[])?;
    Ok(text)
}

/// Whether there is no tour.
fn is_infeasible(end: End) -> bool
    ensures { result ≡ is_end_infeasible end }
{
    match end {
        End::Infeasible => true,
        _ => false,
    }
}

/// What every report begins with.
fn head(alloc: Global, town: &Town, answer: &Answer) -> Result<Vec<u8>, AllocError>
    ensures { IfOk result (λ text. text.items ≡ text_of (head_lines town.now answer.now)) }
{
    let mut text = Vec::new(alloc);
    push_line(&mut text, end_text(alloc, &answer.end)?.as_slice())?;
    push_line(&mut text, town_line(alloc, town)?.as_bytes())?;
    Ok(text)
}

/// Adds the numbers of the search, where a tour exists.
fn push_counts(alloc: Global, text: &mut Vec<u8>, answer: &Answer) -> Result<(), AllocError>
    ensures { OnOk result (text.new.items ≡ text.old.items
        ++ text_of (unless_infeasible answer.now (line_of_counts answer.now ∷ []))) }
{
    if !is_infeasible(answer.end) {
        push_line(text, counts_line(alloc, answer)?.as_bytes())?;
    }
    Ok(())
}

/// Adds what stands where a tour is there: the numbers of the search, and the walk past the stops.
fn push_found(
    alloc: Global,
    text: &mut Vec<u8>,
    town: &Town,
    answer: &Answer,
    stops: &[u32],
) -> Result<(), AllocError>
    requires steps { list_all (λ step. is_legal town.now (arc_of step)) answer.now.steps ≡ true }
    requires stops { All (λ j. j < length town.now.junctions) stops.now }
    ensures { OnOk result (text.new.items ≡ text.old.items
        ++ text_of (unless_infeasible answer.now (found_lines town.now answer.now stops.now))) }
{
    if is_infeasible(answer.end) {
        return Ok(());
    }
    push_line(text, counts_line(alloc, answer)?.as_bytes())?;
    push_base(alloc, text, town, answer.steps.as_slice(), stops)?;
    push_walk(alloc, text, town, answer.steps.as_slice())
}

/// Adds the base, where no step is left and there is a stop.
fn push_base(
    alloc: Global,
    text: &mut Vec<u8>,
    town: &Town,
    steps: &[Step],
    stops: &[u32],
) -> Result<(), AllocError>
    requires { All (λ j. j < length town.now.junctions) stops.now }
    ensures { OnOk result (text.new.items
        ≡ text.old.items ++ text_of (base_lines town.now steps.now stops.now)) }
{
    if steps.is_empty() && !stops.is_empty() {
        let base = town.junctions.as_slice()[stops[0] as usize].as_str();
        push_line(text, base_line(alloc, base)?.as_bytes())?;
    }
    Ok(())
}

/// Adds how many steps there are, and each of them.
fn push_walk(
    alloc: Global,
    text: &mut Vec<u8>,
    town: &Town,
    steps: &[Step],
) -> Result<(), AllocError>
    requires { list_all (λ step. is_legal town.now (arc_of step)) steps.now ≡ true }
    ensures { OnOk result
        (text.new.items ≡ text.old.items ++ text_of (walk_lines town.now steps.now)) }
{
    push_line(text, steps_line(alloc, steps.len())?.as_bytes())?;
    for step in steps {
        push_line(text, step_line(alloc, town, *step)?.as_bytes())?;
    }
    Ok(())
}

#[cfg(test)]
mod tests {
    use super::*;
    use crate::info::info_text;
    use std::test::Fail;
    use wrp_town::List;

    fn nowhere(alloc: Global) -> Town {
        Town {
            junctions: List::new(alloc),
            streets: List::new(alloc),
        }
    }

    fn answer(alloc: Global, end: End) -> Answer {
        Answer {
            end,
            nodes: 1,
            done: 1,
            cuts: 0,
            blind: 0,
            steps: List::new(alloc),
        }
    }

    #[test]
    fn reports_are_written(rt: HostRuntime) -> Result<(), Fail> {
        let alloc = rt.alloc();
        let town = nowhere(alloc);
        let short = summary(alloc, &town, &answer(alloc, End::Infeasible))?;
        assert_eq!(rt;
            short.as_slice(),
            b"infeasible\nstreets 0 junctions 0 required 0 class empty\n".as_slice()
        );
        let told = info_text(alloc, &town, 0, true)?;
        assert_eq!(rt;
            told.as_slice(),
            b"streets 0 junctions 0 required 0 class empty\n\
            one-way 0 two-way 0 closed 0\nparts 0\ntour yes\n"
                .as_slice()
        );
        Ok(())
    }
}
