#![tactic(auto, using(crate::proofs::LeadLaws::leads))]

// "Lead: five or more NUL and then SOH, or six or more SOH of which the last opens the header.
// Printable: any number of NUL, none included, then SOH; or one or more SOH."
ghost use Rattle.std.specs.Prelude.{◌≡◌};
ghost use Rattle.reading.specs.Lead.{nul_lead, soh_lead, lead_of};
ghost use Rattle.reading.specs.InnerParts.{lead_end};

use octets::bytes::{NUL, SOH};
use octets::slices::{byte_at, equal_run};

// NUL and then SOH: where the header starts, or none.
fn nul_lead(t: &[u8], printable: bool) -> Option<usize>
    ensures { result ≡ lead_end t.now (nul_lead printable t.now) }
{
    // "five or more", "any number"
    let fewest = if printable { 0 } else { 5 };
    let n = equal_run(t, 0, NUL);
    if n < fewest || byte_at(t, n) != SOH {
        return None;
    }
    Some(n + 1)
}

// SOH "of which the last opens the header".
fn soh_lead(t: &[u8], printable: bool) -> Option<usize>
    ensures { result ≡ lead_end t.now (soh_lead printable t.now) }
{
    // "six or more", "one or more"
    let fewest = if printable { 1 } else { 6 };
    let n = equal_run(t, 0, SOH);
    if n < fewest { None } else { Some(n) }
}

// The first byte says which of the two.
pub fn lead_end(t: &[u8], printable: bool) -> Option<usize>
    ensures { result ≡ lead_end t.now (lead_of printable t.now) }
{
    if byte_at(t, 0) == NUL {
        nul_lead(t, printable)
    } else {
        soh_lead(t, printable)
    }
}
