//! One target at a time: it is swept, and its numbers are copied.

ghost use Rattle.std.specs.Prelude.{◌≡◌, ◌≢◌, ℕ, ◌+◌, ◌*◌, ◌<◌, ◌≤◌, length, pos, OnOk};
ghost use Rattle.fx_eqs.specs.declared.limits.TheConstants.{PORTS};
ghost use Rattle.fx_net.specs.Tables.{net_of};
ghost use Rattle.fx_nums.specs.Interval.{magnitude};
ghost use Rattle.fx_sweep.specs.Range.{first_range_in};
ghost use Rattle.fx_sweep.specs.Swept.{Swept, carried_at, input_gain_at, range_of, whole_in, width_at};
ghost use Rattle.fx_sweep.specs.Target.{TargetFits, start_of};
ghost use Rattle.fx_totals.specs.Filled.{AreLeading, length_in, target_in};
ghost use Rattle.fx_totals.specs.Kept.{AreUpTo, IsUpTo, greatest_gain, greatest_sum_of_widths};

use fx_eqs::PORTS;
use fx_net::{LARGEST_NET, Net};
use fx_sweep::{GREATEST_LENGTH, RangeAt, Sweep, Target};

// Sweeps a target for so many moments, or answers the first range that is met.
pub fn sweep_target<const N: usize>(
    sweep: &mut Sweep<N>,
    net: &Net<N>,
    target: Target,
    moments: u16,
) -> Result<(), RangeAt>
    requires target { TargetFits N target }
    requires short { moments ≤ GREATEST_LENGTH }
    ensures range { range_of result ≡ first_range_in (net_of net.now) (start_of target) moments }
    ensures swept { OnOk result (Swept sweep.new (net_of net.now) target moments) }
    ensures made { sweep.new.made ≤ sweep.old.made + moments }
{
    sweep.start(target);
    let mut done = 0;
    while done < moments {
        done += sweep.moments(net, moments - done)?;
    }
    Ok(())
}

// Puts a number at a place.
pub fn put(at: &mut [i128], place: usize, number: i128)
    requires { place < length at.old }
    ensures count { length at.new ≡ length at.old }
    ensures here { whole_in at.new place ≡ number }
    ensures others { (k : ℕ) → k ≢ place → whole_in at.new k ≡ whole_in at.old k }
    ensures fits { (most : ℕ) → AreUpTo most at.old → IsUpTo most number → AreUpTo most at.new }
{
    at[place] = number;
}

// Copies the gains of the inputs from a place on.
pub fn copy_gains<const N: usize>(sweep: &Sweep<N>, at: &mut [i128], place: usize)
    requires inside { place + PORTS ≤ length at.old }
    requires fit { AreUpTo greatest_gain at.old }
    ensures count { length at.new ≡ length at.old }
    ensures here { (j : ℕ) → j < PORTS → whole_in at.new (place + j) ≡ pos (input_gain_at sweep.now j) }
    ensures before { (k : ℕ) → k < place → whole_in at.new k ≡ whole_in at.old k }
    ensures fits { AreUpTo greatest_gain at.new }
{
    for j in 0..PORTS {
        put(at, place + j, sweep.input_gain(j));
    }
}

// Copies the widths of the rows from a place on.
pub fn copy_widths<const N: usize>(sweep: &Sweep<N>, at: &mut [i128], place: usize)
    requires inside { place + N ≤ length at.old }
    requires fit { AreUpTo greatest_sum_of_widths at.old }
    ensures count { length at.new ≡ length at.old }
    ensures here { (i : ℕ) → i < N → whole_in at.new (place + i) ≡ width_at sweep.now i }
    ensures before { (k : ℕ) → k < place → whole_in at.new k ≡ whole_in at.old k }
    ensures fits { AreUpTo greatest_sum_of_widths at.new }
{
    for i in 0..N {
        put(at, place + i, sweep.width(i));
    }
}

// Copies the rests of the rows from a place on.
pub fn copy_rests<const N: usize>(sweep: &Sweep<N>, at: &mut [i128], place: usize)
    requires inside { place + N ≤ length at.old }
    requires fit { AreUpTo greatest_gain at.old }
    ensures count { length at.new ≡ length at.old }
    ensures here { (i : ℕ) → i < N → whole_in at.new (place + i) ≡ pos (magnitude (carried_at sweep.now i)) }
    ensures before { (k : ℕ) → k < place → whole_in at.new k ≡ whole_in at.old k }
    ensures fits { AreUpTo greatest_gain at.new }
{
    for i in 0..N {
        put(at, place + i, sweep.rest(i));
    }
}

// The target at a place.
pub fn target_at(targets: &[Target], t: usize) -> Target
    requires { t < length targets.now }
    ensures { result ≡ target_in targets.now t }
{
    targets[t]
}

// The length at a place.
pub fn length_at(lengths: &[u16], t: usize) -> u16
    requires { t < length lengths.now }
    ensures { result ≡ length_in lengths.now t }
{
    lengths[t]
}

// How many targets, from the first on, are the rows in order.
pub fn leading_rows(targets: &[Target]) -> usize
    requires { length targets.now ≤ LARGEST_NET + PORTS }
    ensures { AreLeading result targets.now }
{
    for t in 0..targets.len() {
        if targets[t] != Target::Row(t as u8) {
            return t;
        }
    }
    targets.len()
}

// The place of a number in lines of so many.
pub fn place_in(line: usize, width: usize, i: usize, lines: usize) -> usize
    requires line { line < lines }
    requires width { width ≤ LARGEST_NET }
    requires lines { lines ≤ LARGEST_NET + PORTS }
    requires i { i < width }
    ensures value { result ≡ line * width + i }
    ensures inside { result < lines * width }
{
    line * width + i
}

// The place where a line of so many begins.
pub fn line_at(line: usize, width: usize, lines: usize) -> usize
    requires line { line < lines }
    requires width { width ≤ LARGEST_NET }
    requires lines { lines ≤ LARGEST_NET + PORTS }
    ensures value { result ≡ line * width }
    ensures inside { result + width ≤ lines * width }
{
    line * width
}
