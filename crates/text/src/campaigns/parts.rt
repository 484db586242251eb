// The parts of a campaign's text.
ghost use Rattle.std.specs.Prelude.{◌≡◌, ℕ, List, ◌++◌, filter, IfOk, string_bytes, OnOk};
ghost use Rattle.acts.specs.Acts.{ActFits};
ghost use Rattle.groups.specs.Groups.{marked};
ghost use Rattle.std.specs.List.{AllByRecursion, range_with_len};
ghost use Rattle.headers.specs.Lines.{list_from, marks_shown};
ghost use Rattle.layout.specs.Render.{value_lines, act_lines};

use acts::{Act, act_line};
use fields::Written;
use groups::Group;
use headers::Listed;
use std::alloc::{AllocError, Global};

// The marked controllers, in rising order.
fn marked_ones(group: &Group, heap: Global) -> Result<Vec<u16>, AllocError>
    ensures { IfOk result (λ v. v.items ≡ filter (marked group.now) (range_with_len 0 16)) }
{
    (0..16u16).filter(|k| group.is_marked(*k)).collect(heap)
}

// The marks with commas between them, or a dash.
pub(crate) fn marks_text(group: &Group, heap: Global) -> Result<String, AllocError>
    ensures { IfOk result (λ t. string_bytes t ≡ marks_shown (list_from 16 0 (marked group.now))) }
{
    let marks = marked_ones(group, heap)?;
    Listed(&marks).to_string(heap)
}

// The v lines, behind what the text has already. Every number of a value fits, since values hold numbers of 16 bits.
pub(crate) fn push_values<K: Written>(
    text: &mut String,
    values: &[K],
    heap: Global,
) -> Result<(), AllocError>
    ensures bytes { OnOk result ((rest : List ℕ) → string_bytes text.new ++ rest ≡ string_bytes text.old ++ value_lines K.Written.shows values.now rest) }
    ensures fit { OnOk result (AllByRecursion K.Written.fits values.now) }
{
    for v in values {
        let fields = v.written(heap)?;
        write!(text, "v={fields}\n")?;
    }
    Ok(())
}

// The lines of the acts, behind what the text has already. Their numbers fit likewise.
pub(crate) fn push_acts<K: Written>(
    text: &mut String,
    acts: &[Act<K>],
    heap: Global,
) -> Result<(), AllocError>
    ensures bytes { OnOk result (string_bytes text.new ≡ string_bytes text.old ++ act_lines K.Written.shows acts.now) }
    ensures fit { OnOk result (AllByRecursion (ActFits K.Written.fits) acts.now) }
{
    for a in acts {
        let line = act_line(a, heap)?;
        write!(text, "{line}\n")?;
    }
    Ok(())
}
