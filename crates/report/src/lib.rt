// Figures for the course report: over a class run, the share of ends in which each fluent holds, the mean number of fluents holding in
// an end, and the mean ends per unrefused start, as exact fractions in lowest terms.
//
// One pass over the results counts the unrefused starts, one over the ends counts them by fluent; Euclid's steps reduce each fraction.
#![tactic(auto)]

ghost use Rattle.std.specs.Prelude.{◌≡◌, ◌++◌, ℕ, ◌+◌, ◌*◌, ◌/◌, ◌<◌, ◌≤◌, ◌^◌, length, get_or, take, drop};
ghost use Rattle.refusals.specs.Number.{number_in};
ghost use Rattle.steps.specs.State.{bit};
ghost use Rattle.report.specs.Fraction.{common, fraction};
ghost use Rattle.report.specs.Figures.{fractions};
ghost use Rattle.report.specs.Report.{refusal, output_after};
ghost use Rattle.report.specs.Passes.{Started, Tallied};

use refusals::Refusal;

// Gives the refusal, or 0. The figures come first in `out`, two words each, which is unchanged past them and by a refusal.
// Stays: the number is what C sees, as `lawhemuri_report` hands it on.
pub fn report(fluents: u64, results: &[u64], ends: &[u64], out: &mut [u64]) -> u64
    ensures value { result ≡ refusal fluents results.now ends.now (length out.old) }
    ensures out_after { out.new ≡ output_after fluents results.now ends.now out.old }
{
    refusals::number_in(&write_report(fluents, results, ends, out))
}

// The same, where the refusal is one.
fn write_report(fluents: u64, results: &[u64], ends: &[u64], out: &mut [u64]) -> Result<(), Refusal>
    ensures value { number_in result ≡ refusal fluents results.now ends.now (length out.old) }
    ensures out_after { out.new ≡ output_after fluents results.now ends.now out.old }
{
    if 64 < fluents {
        return Err(Refusal::BadCounts);
    }
    let runs = check_starts(results, ends.len())?;
    let mut counts = [0u64; 64];
    let held = tally(fluents, ends, &mut counts)?;
    if (out.len() as u64) < 2 * fluents + 4 {
        return Err(Refusal::ReportShort);
    }
    let lent = ends.len() as u64;
    write_figures(fluents as usize, &counts, held, lent, runs, out);
    Ok(())
}

// The most ends of a start.
const MOST_ENDS: u64 = 65536;

// Checks the results against the number of ends lent and counts the unrefused starts. A start's ends are tested before they are added,
// so that no sum is over 2^26.
fn check_starts(results: &[u64], lent: usize) -> Result<u64, Refusal>
    ensures { Started results.now lent result }
{
    if results.len() % 4 != 0 {
        return Err(Refusal::BadResults);
    }
    let starts = results.len() / 4;
    if 1024 < starts {
        return Err(Refusal::BadResults);
    }
    let mut runs: u64 = 0;
    let mut sum: u64 = 0;
    for i in 0..starts {
        if results[4 * i] == 0 {
            let ends = results[4 * i + 1];
            if MOST_ENDS < ends {
                return Err(Refusal::BadResults);
            }
            runs += 1;
            sum += ends;
        }
    }
    if sum != lent as u64 {
        return Err(Refusal::BadResults);
    }
    Ok(runs)
}

// Counts in one pass, from counts of 0, in how many ends each fluent holds, and how many fluents hold in all ends together.
fn tally(fluents: u64, ends: &[u64], counts: &mut [u64]) -> Result<u64, Refusal>
    requires { (fluents ≤ 64) × (length counts.old ≡ 64) × (length ends.now ≤ 2 ^ 26)
        × ((k : ℕ) → k < 64 → get_or counts.old k 0 ≡ 0) }
    ensures { Tallied fluents ends.now result counts.new }
{
    let mut sum: u64 = 0;
    for &end in ends {
        if count_end(fluents, end, counts) != 0 {
            return Err(Refusal::BadResults);
        }
        sum += u64::from(end.count_ones());
    }
    Ok(sum)
}

// Adds the end to the count of each fluent that holds in it, and gives the bits at or above the fluent count.
fn count_end(fluents: u64, end: u64, counts: &mut [u64]) -> u64
    requires { (fluents ≤ length counts.old) × ((k : ℕ) → k < fluents → get_or counts.old k 0 < 2 ^ 63) }
    ensures { (result ≡ end / 2 ^ fluents)
        × ((k : ℕ) → k < fluents → get_or counts.new k 0 ≡ get_or counts.old k 0 + bit end k) }
{
    let mut rest = end;
    for count in counts[..fluents as usize].iter_mut() {
        *count += rest % 2;
        rest /= 2;
    }
    rest
}

// Writes the shares of the fluents and the two means from the beginning of `out`.
fn write_figures(fluents: usize, counts: &[u64], sum: u64, lent: u64, runs: u64, out: &mut [u64])
    requires { (fluents ≤ length counts.now) × (2 * fluents + 4 ≤ length out.old) }
    ensures { out.new
        ≡ fractions fluents (λ k. get_or counts.now k 0) lent ++ fraction sum lent ++ fraction lent runs
        ++ drop (2 * fluents + 4) out.old }
{
    write_fractions(fluents, counts, lent, out);
    write_fraction(sum, lent, 2 * fluents, out);
    write_fraction(lent, runs, 2 * fluents + 2, out);
}

// Writes the counts below n, each over d, from the beginning of `out`.
fn write_fractions(n: usize, counts: &[u64], d: u64, out: &mut [u64])
    requires { (n ≤ length counts.now) × (2 * n ≤ length out.old) }
    ensures { out.new ≡ fractions n (λ k. get_or counts.now k 0) d ++ drop (2 * n) out.old }
{
    for (k, &count) in counts[..n].iter().enumerate() {
        write_fraction(count, d, 2 * k, out);
    }
}

// Writes n over d in lowest terms to two words of `out`.
fn write_fraction(n: u64, d: u64, at: usize, out: &mut [u64])
    requires { at + 2 ≤ length out.old }
    ensures { out.new ≡ take at out.old ++ fraction n d ++ drop (at + 2) out.old }
{
    out[at..at + 2].copy_from_slice(&lowest(n, d));
}

// n over d in lowest terms, numerator before denominator; 0 over 0 where d is 0.
fn lowest(n: u64, d: u64) -> [u64; 2]
    ensures { result ≡ fraction n d }
{
    if d == 0 {
        return [0, 0];
    }
    let divisor = common(n, d);
    [n / divisor, d / divisor]
}

// The greatest common divisor, by Euclid's steps.
fn common(n: u64, d: u64) -> u64
    ensures { result ≡ common n d }
{
    let mut a = n;
    let mut b = d;
    while b != 0 {
        let rest = a % b;
        a = b;
        b = rest;
    }
    a
}
