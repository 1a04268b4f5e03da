//! Bundles as lines.
ghost use Rattle.std.specs.Prelude.{◌≡◌, ◌+◌, ◌<◌, ◌^◌, ◌++◌, IfOk, OnOk, string_bytes, sum_by};
ghost use Rattle.gen_file.specs.Parts.{bundle_length, exhibit_length};
ghost use Rattle.gen_show.specs.BundleText.{bundle_lines, exhibit_lines, run_lines};

use crate::headers::push_header;
use crate::logs::push_log;
use gen_audit::Bundle;
use gen_file::{EXHIBIT_FRONT, bundle_front_length, exhibit_bytes, push_generals, push_members};
use gen_local::Exhibit;
use gen_net::Header;
use std::alloc::{AllocError, Global};

/// Appends the lines of exhibits, of which the first begins at this byte. Returns the byte at which they end.
fn push_exhibits(
    alloc: Global,
    out: &mut String,
    header: &Header,
    start: usize,
    exhibits: &[Exhibit],
) -> Result<usize, AllocError>
    requires { start + sum_by exhibit_length exhibits.now < 2 ^ 64 }
    ensures text { OnOk result
        (string_bytes out.new ≡ string_bytes out.old ++ exhibit_lines header.now start exhibits.now) }
    ensures end { IfOk result (λ end. end ≡ start + sum_by exhibit_length exhibits.now) }
{
    let mut at = start;
    for index in 0..exhibits.len() {
        let exhibit = &exhibits[index];
        let log = exhibit.log();
        let general = exhibit.general();
        push_log(alloc, out, header, general, at + EXHIBIT_FRONT, log)?;
        at += exhibit_bytes(exhibit);
    }
    Ok(at)
}

/// Appends the lines of a bundle that begins at this byte of a file. Returns the byte at which it ends.
#[tactic(auto, unfolding(crate::specs::BundleText::bundle_lines))]
pub fn push_bundle(
    alloc: Global,
    out: &mut String,
    at: usize,
    bundle: &Bundle,
) -> Result<usize, AllocError>
    requires { at + bundle_length bundle.now < 2 ^ 64 }
    ensures text { OnOk result
        (string_bytes out.new ≡ string_bytes out.old ++ bundle_lines at bundle.now) }
    ensures end { IfOk result (λ end. end ≡ at + bundle_length bundle.now) }
{
    let header = bundle.header();
    push_header(alloc, out, "bundle", header)?;
    out.push_str("faulty ")?;
    push_members(out, *bundle.faulty())?;
    out.push_str("\n")?;
    let walks = bundle.walks().as_slice();
    for walk in walks {
        out.push_str("walk ")?;
        push_generals(out, walk.generals())?;
        out.push_str("\n")?;
    }
    let start = at + bundle_front_length(alloc, bundle)?;
    let end = push_exhibits(alloc, out, header, start, bundle.exhibits())?;
    out.push_str("end\n")?;
    Ok(end)
}

/// Appends the lines of the bundles of a campaign's runs, of which the first begins at this byte. Before those of each
/// bundle stands a line with its place and the byte at which it begins.
#[tactic(auto, unfolding(crate::specs::BundleText::place_line))]
pub fn push_runs(
    alloc: Global,
    out: &mut String,
    start: usize,
    bundles: &[Bundle],
) -> Result<(), AllocError>
    requires { start + sum_by bundle_length bundles.now < 2 ^ 64 }
    ensures { OnOk result
        (string_bytes out.new ≡ string_bytes out.old ++ run_lines 0 start bundles.now) }
{
    let mut at = start;
    for place in 0..bundles.len() {
        write!(out, "place {place} byte {at}\n")?;
        at = push_bundle(alloc, out, at, &bundles[place])?;
    }
    Ok(())
}
