// Values in a slice that a caller lends.
#![tactic(auto)]

ghost use Rattle.std.specs.Prelude.{◌≡◌};
ghost use Rattle.std.proofs.lemmas.List.Edits.{sets};

// Stores the values from a place on, as far as the slice goes.
#[tactic(auto, using(crate::proofs::Stored::sets_past, crate::proofs::Stored::sets_fitting, crate::proofs::Stored::sets_of_part))]
pub fn put<T: Copy>(out: &mut [T], at: usize, values: &[T])
    ensures { out.new ≡ sets out.old at values.now }
{
    if out.len() <= at {
        return;
    }
    let n = values.len().min(out.len() - at);
    out[at..at + n].copy_from_slice(&values[..n]);
}
