// A town as a street table. After want of memory a part of what is written may stand.

ghost use Rattle.std.specs.Prelude.{◌≡◌, ◌<◌, ◌≤◌, ◌++◌, ◌∷◌, [], length, IfOk, OnOk};
ghost use Rattle.std.specs.String.{string_bytes};
ghost use Rattle.wrp_street.specs.Headers.{columns};
ghost use Rattle.wrp_records.specs.Lines.{line_text};
ghost use Rattle.wrp_street.specs.Canonical.{text_of_cost, text_of_need, fields_of_street, canonical_of, size_limit};
ghost use Rattle.wrp_street.specs.Tables.{IsTable};

use std::alloc::{AllocError, Global};
use wrp_records::push_line;
use wrp_town::{Need, Street, Town};

// The cost of a direction, a dash where it is illegal.
fn cost_text(alloc: Global, cost: Option<u32>) -> Result<String, AllocError>
    ensures { IfOk result (λ text. string_bytes text ≡ text_of_cost cost) }
{
    match cost {
        Some(cost) => format!(in alloc; "{cost}"),
        None => String::from_str(alloc, "-"),
    }
}

// The word of a need.
fn need_text(need: Need) -> &'static str
    ensures { result.now ≡ text_of_need need }
{
    match need {
        Need::No => "no",
        Need::Either => "yes",
        Need::Forward => "forward",
        Need::Backward => "backward",
        Need::Both => "both",
    }
}

fn push_header(out: &mut Vec<u8>) -> Result<(), AllocError>
    ensures { OnOk result (out.new.items ≡ out.old.items ++ line_text columns) }
{
    push_line(
        out,
        &[b"street", b"from", b"to", b"forward", b"backward", b"need"],
    )
}

fn push_row<'a>(
    out: &mut Vec<u8>,
    street: &'a [u8],
    from: &'a [u8],
    to: &'a [u8],
    forward: &'a [u8],
    backward: &'a [u8],
    need: &'a [u8],
) -> Result<(), AllocError>
    ensures { OnOk result (out.new.items ≡ out.old.items ++ line_text
        (street.now ∷ from.now ∷ to.now ∷ forward.now ∷ backward.now ∷ need.now ∷ [])) }
{
    push_line(out, &[street, from, to, forward, backward, need])
}

// Writes a street whose ends are junctions of the town.
fn push_street(
    alloc: Global,
    out: &mut Vec<u8>,
    town: &Town,
    street: &Street,
) -> Result<(), AllocError>
    requires from { street.now.from < length town.now.junctions }
    requires to { street.now.to < length town.now.junctions }
    ensures { OnOk result (out.new.items ≡ out.old.items
        ++ line_text (fields_of_street town.now.junctions street.now)) }
{
    let junctions = town.junctions.as_slice();
    let forward = cost_text(alloc, street.forward)?;
    let backward = cost_text(alloc, street.backward)?;
    push_row(
        out,
        street.name.as_str().as_bytes(),
        junctions[street.from as usize].as_str().as_bytes(),
        junctions[street.to as usize].as_str().as_bytes(),
        forward.as_bytes(),
        backward.as_bytes(),
        need_text(street.need).as_bytes(),
    )
}

/// The town as a street table: a header and a line for each street, in order. Costs have no
/// leading zeros, and a dash stands for an illegal direction. A name is quoted exactly where it
/// holds a comma or a double quote. Reading the table gives the same town.
///
/// # Errors
///
/// Want of memory alone.
pub fn canonical(alloc: Global, town: &Town) -> Result<Vec<u8>, AllocError>
    ensures text { IfOk result (λ table. table.items ≡ canonical_of town.now) }
    ensures read { IfOk result (λ table. IsTable table.items town.now) }
    ensures size { IfOk result (λ table. length table.items ≤ size_limit) }
{
    let mut table = Vec::new(alloc);
    push_header(&mut table)?;
    for street in town.streets.as_slice() {
        push_street(alloc, &mut table, town, street)?;
    }
    Ok(table)
}
