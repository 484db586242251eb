// Reading a whole campaign.
ghost use Rattle.std.specs.Prelude.{◌≡◌, IfOk, Ok, Err, MatchResult};
ghost use Rattle.text_faults.specs.Faults.{Faulted};
ghost use Rattle.layout.specs.Campaigns.{campaign_taken};
ghost use Rattle.reader.specs.Reading.{start};
ghost use Rattle.text.specs.Campaigns.{told_of};
ghost use Rattle.layout.specs.Render.{render};

use super::Campaign;
use fields::Written;
use reader::Reader;
use std::alloc::Global;
use text_faults::{ReadError, TextCause, TextFault};

// Reads a campaign whose values are of the kind `K`. The kind line of a campaign of the other kind, its sixth line, is
// refused by its form.
pub fn read<K: Written + Drop>(text: &[u8], heap: Global) -> Result<Campaign<K>, ReadError>
    ensures is { MatchResult result (λ c. (campaign_taken K.Written.reads K.Kind.same K.Written.kind (start text.entry)).0 ≡ Ok (told_of c)) (λ e. Faulted e (λ f. (campaign_taken K.Written.reads K.Kind.same K.Written.kind (start text.entry)).0 ≡ Err f)) }
    ensures text { IfOk result (λ c. text.now ≡ render K.Written.shows K.Written.kind (told_of c)) }
{
    let mut reader = Reader::new(text);
    let header = reader.header()?;
    if header.kind != K::kind() {
        return Err(ReadError::Fault(TextFault {
            line: 6,
            cause: TextCause::Form,
        }));
    }
    let values = reader.values(header.count, heap)?;
    let acts = reader.acts(heap)?;
    Ok(Campaign {
        group: header.group,
        carriage: header.carriage,
        values,
        acts,
    })
}
