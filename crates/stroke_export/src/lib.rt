//! Strokes, for a program in another language to call: a job's bytes are read and stroked, and the
//! outline is written as records over the bytes that are lent. No memory is asked for.
#![tactic(auto)]

ghost use Rattle.std.specs.Prelude.{◌≡◌, length};
ghost use Rattle.maths.specs.Functions.{restricted};
ghost use Rattle.maths.specs.Series.{series};
ghost use Rattle.maths.specs.Tables.{tabled};
ghost use Rattle.maths.specs.ByteRows.{rows_in};
ghost use Rattle.stroke_export.specs.Drawings.{job_drawn, told_of, bytes_of};

mod answer;
mod drawing;

use crate::answer::Answer;
use crate::drawing::{drawn, drawn_long};
use maths::series::SeriesHost;
use maths::table::TableHost;
use storage::storage128::Storage128;

/// By the series host, with a storage of 128 segments.
#[unsafe(no_mangle)]
pub extern "C" fn stroke_job(job: &[u8], bytes: &mut [u8], answer: &mut Answer)
    ensures answer { answer.new ≡ told_of (job_drawn (restricted series) 128 job.now (length bytes.old)) }
    ensures bytes { bytes.new ≡ bytes_of (job_drawn (restricted series) 128 job.now (length bytes.old)) bytes.old }
{
    *answer = drawn(job, bytes, &mut Storage128::new(), &mut SeriesHost::new());
}

/// By the series host, with a storage of 4,096 segments.
#[unsafe(no_mangle)]
pub extern "C" fn stroke_job_long(job: &[u8], bytes: &mut [u8], answer: &mut Answer)
    ensures answer { answer.new ≡ told_of (job_drawn (restricted series) 4096 job.now (length bytes.old)) }
    ensures bytes { bytes.new ≡ bytes_of (job_drawn (restricted series) 4096 job.now (length bytes.old)) bytes.old }
{
    *answer = drawn_long(job, bytes, &mut SeriesHost::new());
}

/// By rows of nine bytes as the maths, with a storage of 128 segments.
#[unsafe(no_mangle)]
pub extern "C" fn stroke_job_by_rows(rows: &[u8], job: &[u8], bytes: &mut [u8], answer: &mut Answer)
    ensures answer { answer.new ≡ told_of (job_drawn (tabled (rows_in rows.now)) 128 job.now (length bytes.old)) }
    ensures bytes { bytes.new ≡ bytes_of (job_drawn (tabled (rows_in rows.now)) 128 job.now (length bytes.old)) bytes.old }
{
    *answer = drawn(
        job,
        bytes,
        &mut Storage128::new(),
        &mut TableHost::from_bytes(rows),
    );
}

/// By rows of nine bytes as the maths, with a storage of 4,096 segments.
#[unsafe(no_mangle)]
pub extern "C" fn stroke_job_long_by_rows(
    rows: &[u8],
    job: &[u8],
    bytes: &mut [u8],
    answer: &mut Answer,
)
    ensures answer { answer.new ≡ told_of (job_drawn (tabled (rows_in rows.now)) 4096 job.now (length bytes.old)) }
    ensures bytes { bytes.new ≡ bytes_of (job_drawn (tabled (rows_in rows.now)) 4096 job.now (length bytes.old)) bytes.old }
{
    *answer = drawn_long(job, bytes, &mut TableHost::from_bytes(rows));
}
