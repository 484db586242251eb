// Writing a campaign.
ghost use Rattle.std.specs.Prelude.{◌≡◌, ◌++◌, length, take, drop, IfOk, Some, None, string_bytes, MatchResult};
ghost use Rattle.text.specs.Campaigns.{told_of};
ghost use Rattle.layout.specs.Campaigns.{ReadsAs};
ghost use Rattle.layout.specs.Render.{render};
ghost use Rattle.text_faults.specs.Faults.{FaultedBy};
ghost use Rattle.text.specs.Writing.{write_fault};
ghost use Rattle.lists.specs.Lists.{list_fault};

use super::Campaign;
use super::parts::{marks_text, push_acts, push_values};
use fields::Written;
use lists::check_list;
use std::alloc::{AllocError, Global};
use text_faults::{WriteError, WriteFault};

// The text of a campaign. If its list is one, the text is read back as this campaign.
pub fn rendered<K: Written>(campaign: &Campaign<K>, heap: Global) -> Result<String, AllocError>
    ensures text { IfOk result (λ t. string_bytes t ≡ render K.Written.shows K.Written.kind (told_of campaign.now)) }
    ensures back { list_fault K.Kind.same campaign.now.values.items ≡ None → IfOk result (λ t. ReadsAs K.Written.reads K.Kind.same K.Written.kind (string_bytes t) (told_of campaign.now)) }
{
    let mut body = String::new(heap);
    push_values(&mut body, &campaign.values, heap)?;
    push_acts(&mut body, &campaign.acts, heap)?;
    let carriage = campaign.carriage;
    let kind = K::kind();
    let count = campaign.values.len();
    let rest = format!(in heap; "carriage={carriage}\nkind={kind}\nvalues={count}\n{body}")?;
    let n = campaign.group.n();
    let t = campaign.group.t();
    let marks = marks_text(&campaign.group, heap)?;
    format!(in heap; "bench=1\nn={n}\nt={t}\nmarks={marks}\n{rest}")
}

// Writes a campaign into a lent buffer and answers the length of its text. A list that is none is refused first, then a
// buffer that is too short; a refusal changes no byte, and no byte past the text is touched. What is written is read back as
// this campaign.
pub fn write<K: Written>(
    campaign: &Campaign<K>,
    buffer: &mut [u8],
    heap: Global,
) -> Result<usize, WriteError>
    ensures is { MatchResult result (λ n. (write_fault K.Kind.same K.Written.shows K.Written.kind (told_of campaign.now) (length buffer.old) ≡ None) × (n ≡ length (render K.Written.shows K.Written.kind (told_of campaign.now))) × (buffer.new ≡ render K.Written.shows K.Written.kind (told_of campaign.now) ++ drop n buffer.old)) (λ e. FaultedBy e (λ f. write_fault K.Kind.same K.Written.shows K.Written.kind (told_of campaign.now) (length buffer.old) ≡ Some f) × (buffer.new ≡ buffer.old)) }
    ensures back { IfOk result (λ n. ReadsAs K.Written.reads K.Kind.same K.Written.kind (take n buffer.new) (told_of campaign.now)) }
{
    check_list(&campaign.values)?;
    let text = rendered(campaign, heap)?;
    let n = text.len();
    if buffer.len() < n {
        return Err(WriteError::Fault(WriteFault::Short));
    }
    buffer[0..n].copy_from_slice(text.as_bytes());
    Ok(n)
}
