// The capacities of texture memory in words: a table of twenty entries for each mode, format by size.
// A format and a size are an object's bytes, and the checks have passed them: the range stands in the clauses of the three functions that read a table, and no type is made for it.
#![tactic(auto)]

ghost use Rattle.std.specs.Prelude.{◌≡◌, ◌+◌, ◌*◌, ◌≤◌, slice_index};
ghost use Rattle.plan.specs.Copy.{copy_capacity};
ghost use Rattle.plan.specs.Scaled.{scaled_capacity};
ghost use Rattle.capacity.specs.Entry.{Capacity};

const COPY_CAPACITY: [u64; 20] = [
    512, 512, 512, 256, 512, 512, 512, 256, 256, 256, 256, 256, 512, 512, 512, 256, 512, 512, 512,
    256,
];

const SCALED_CAPACITY: [u64; 20] = [
    512, 512, 512, 480, 512, 512, 512, 480, 256, 256, 256, 480, 512, 512, 512, 480, 512, 512, 512,
    480,
];

// The entry of a format and a size in a table.
fn entry(table: &[u64; 20], fmt: u8, siz: u8) -> u64
    requires { (fmt ≤ 4) × (siz ≤ 3) }
    ensures { result ≡ slice_index table.now (fmt * 4 + siz) }
{
    table[usize::from(fmt) * 4 + usize::from(siz)]
}

pub fn copy_capacity(fmt: u8, siz: u8) -> u64
    requires { (fmt ≤ 4) × (siz ≤ 3) }
    ensures { Capacity (copy_capacity fmt siz) result }
{
    entry(&COPY_CAPACITY, fmt, siz)
}

pub fn scaled_capacity(fmt: u8, siz: u8) -> u64
    requires { (fmt ≤ 4) × (siz ≤ 3) }
    ensures { Capacity (scaled_capacity fmt siz) result }
{
    entry(&SCALED_CAPACITY, fmt, siz)
}
