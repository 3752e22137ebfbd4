// The numbers of a lent slice.
#![tactic(auto)]

ghost use Rattle.std.specs.Prelude.{◌≡◌, ◌≤◌, length, get_or};
ghost use Rattle.model.specs.Lists.{written_over};

// Number j of a slice; past its end there are zeros.
pub fn at(xs: &[u16], j: usize) -> u16
    ensures { result ≡ get_or xs.now j 0 }
{
    xs.get(j).copied().unwrap_or(0)
}

// The values go to the start of a slice that has room for them.
#[tactic(auto, unfolding(model::specs::Lists::written_over))]
pub fn write_over(values: &[u16], slice: &mut [u16])
    requires { length values.now ≤ length slice.old }
    ensures { slice.new ≡ written_over values.now slice.old }
{
    slice[..values.len()].copy_from_slice(values);
}
