//! Finds evidence across runs.
ghost use Rattle.std.specs.Prelude.{◌≡◌, Contains, IfOk, length, map};
ghost use Rattle.gen_log.specs.Fields.{AreBelow};
ghost use Rattle.gen_local.specs.Report.{IsReport, LocalReport as Report};
ghost use Rattle.gen_net.specs.Header.{IsHeader};
ghost use Rattle.gen_convict.specs.AcrossFinding.{RunReports, runs_of};
ghost use Rattle.gen_convict.specs.AcrossLaws.{AreConvictedAcross, AreEvidenceAcross, AreUnderHeaders};
ghost use Rattle.gen_convict.specs.AcrossLaws.{ConvictsAcrossWhereHeld, shown_runs};
ghost use Rattle.gen_convict.specs.Evidence.{told_of};
ghost use Rattle.gen_convict.specs.Seen.{seen, seen_run};

use crate::claims::Claim;
use crate::evidence::Evidence;
use crate::finding::note_reports;
use crate::rivals::{first_rivals, texts_across};
use crate::run_texts::RunText;
use crate::seen_texts::{SeenRun, SeenText};
use crate::text_claims::copied_text;
use gen_local::LocalReport;
use gen_net::Header;
use gen_types::GeneralNo;
use gen_types::limits::MOST_GENERALS;
use std::alloc::{AllocError, Global};

/// Returns a copy of a text and of the header of its run.
fn copied(alloc: Global, text: SeenText) -> Result<RunText, AllocError>
    ensures { IfOk result (λ copy. copy ≡ seen text.entry) }
{
    Ok(RunText {
        header: text.header.clone()?,
        text: copied_text(alloc, text.text)?,
    })
}

/// Makes known that the header of each of the runs is a lawful header, and that each of its reports is one, of an
/// exhibit that consists of bytes.
fn note_runs(runs: &[SeenRun])
    ensures { (run : RunReports) → Contains (map seen_run runs.now) run → IsHeader run.header
        × ((r : Report) → Contains run.reports r → IsReport r × AreBelow 256 r.exhibit.bytes) }
{
    for run in runs {
        let _net = run.header.net();
        note_reports(run.reports);
    }
}

/// Returns, for each general, the first two of its texts that contradict each other across two of these runs: two
/// different texts under one leaf of one tree. The generals are in ascending order. The texts are listed run by run,
/// and in each run in the order of its reports. There is one list of reports for each header, and its reports were made
/// under that header.
///
/// # Errors
///
/// `AllocError` where memory is refused.
pub fn find_across(
    alloc: Global,
    headers: &[Header],
    reports: &[Vec<LocalReport>],
) -> Result<Vec<Evidence>, AllocError>
    requires count { length headers.now ≡ length reports.now }
    requires under { AreUnderHeaders (runs_of headers.now (map (λ v. v.items) reports.now)) }
    // Each general against which the exhibits of two runs hold such texts has the first two; nothing else is returned.
    ensures found { IfOk result (λ found. AreConvictedAcross
        (shown_runs (runs_of headers.now (map (λ v. v.items) reports.now))) (map told_of found.items)) }
    // So a general is convicted if and only if the exhibits of two runs hold two texts of the general that contradict
    // each other across these runs.
    ensures held { IfOk result (λ found. ConvictsAcrossWhereHeld
        (shown_runs (runs_of headers.now (map (λ v. v.items) reports.now))) (map told_of found.items)) }
    // Each of these can be written as evidence.
    ensures lawful { IfOk result (λ found. AreEvidenceAcross (map told_of found.items)) }
{
    let mut runs = Vec::new(alloc);
    'runs: for place in 0..headers.len() {
        runs.push(SeenRun {
            header: &headers[place],
            reports: reports[place].as_slice(),
        })?;
    }
    let seen = runs.as_slice();
    note_runs(seen);
    let mut found = Vec::new(alloc);
    for number in 0..MOST_GENERALS {
        let accused = GeneralNo::at(number);
        let texts = texts_across(alloc, accused, seen)?;
        let rivals = first_rivals(alloc, texts.as_slice())?;
        if let Some((first, second)) = rivals {
            let first = copied(alloc, first)?;
            let second = copied(alloc, second)?;
            let claim = Claim::Across { first, second };
            found.push(Evidence { accused, claim })?;
        }
    }
    Ok(found)
}
