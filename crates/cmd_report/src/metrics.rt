//! What was found about services, as metrics.
ghost use Rattle.std.specs.Prelude.{◌≡◌, ◌++◌, decimal, flat_map, IfOk, OnOk};
ghost use Rattle.cmd_report.specs.Metrics.{head_text, label_byte, label_text, line_of_value, metric_head};
ghost use Rattle.cmd_report.specs.Metrics.{metrics_text, more_labels, sample_line, sample_lines, value_end, valued_line};

use crate::found::FoundService;
use crate::samples::{Sample, metric_help, metric_name, metric_type, value_in};
use itoa::Buffer;
use std::alloc::{AllocError, Allocator};
use tai_status::{Phase, phase_name};

/// All samples, with those of one metric together.
const SAMPLES: [Sample; 19] = [
    Sample::Supervised,
    Sample::Up,
    Sample::Seconds,
    Sample::Since,
    Sample::InPhase(Phase::Starting),
    Sample::InPhase(Phase::Settling),
    Sample::InPhase(Phase::Up),
    Sample::InPhase(Phase::Down),
    Sample::InPhase(Phase::Resting),
    Sample::InPhase(Phase::Gone),
    Sample::WantedUp,
    Sample::Paused,
    Sample::Ready,
    Sample::Finishing,
    Sample::BackingOff,
    Sample::Starts,
    Sample::Deaths,
    Sample::LastStatus,
    Sample::LastSignal,
];

/// Returns what was found about services, in the text exposition format of Prometheus
/// (<https://prometheus.io/docs/instrumenting/exposition_formats/>). Each metric has its help and its type, and after
/// these one line for each service that has a value of it, in the order of the services. Returns `AllocError` only if
/// the allocator refuses the memory for the text.
#[tactic(auto, unfolding(crate::specs::Metrics::metrics_text))]
pub fn metrics_text<A: Allocator>(
    alloc: A,
    founds: &[FoundService],
) -> Result<Vec<u8, A>, AllocError>
    ensures { IfOk result (λ text. text.items ≡ metrics_text founds.now) }
{
    let mut out = Vec::new(alloc);
    push_samples(&mut out, &SAMPLES, founds)?;
    Ok(out)
}

/// Writes the samples of each service that has them.
fn push_samples<A: Allocator>(
    out: &mut Vec<u8, A>,
    samples: &[Sample],
    founds: &[FoundService],
) -> Result<(), AllocError>
    ensures { OnOk result (out.new.items
        ≡ out.old.items ++ flat_map (λ sample. sample_lines sample founds.now) samples.now) }
{
    for sample in samples {
        push_sample(out, *sample, founds)?;
    }
    Ok(())
}

/// Writes a text at the end of another.
fn push_text<A: Allocator>(out: &mut Vec<u8, A>, text: &str) -> Result<(), AllocError>
    ensures { OnOk result (out.new.items ≡ out.old.items ++ text.now) }
{
    out.extend_from_slice(text.as_bytes())
}

/// Writes a sample of each service that has it, after the help of its metric if that sample is the first.
fn push_sample<A: Allocator>(
    out: &mut Vec<u8, A>,
    sample: Sample,
    founds: &[FoundService],
) -> Result<(), AllocError>
    ensures { OnOk result (out.new.items ≡ out.old.items ++ sample_lines sample founds.now) }
{
    push_head(out, sample)?;
    push_lines(out, sample, founds)
}

/// Writes the help and the type of a metric, if this sample is its first.
fn push_head<A: Allocator>(out: &mut Vec<u8, A>, sample: Sample) -> Result<(), AllocError>
    ensures { OnOk result (out.new.items ≡ out.old.items ++ head_text sample) }
{
    match sample {
        Sample::InPhase(Phase::Starting) => push_metric(out, sample),
        Sample::InPhase(_) => Ok(()),
        _ => push_metric(out, sample),
    }
}

/// Writes the help and the type of a sample's metric.
#[tactic(auto, unfolding(crate::specs::Metrics::metric_head))]
fn push_metric<A: Allocator>(out: &mut Vec<u8, A>, sample: Sample) -> Result<(), AllocError>
    ensures { OnOk result (out.new.items ≡ out.old.items ++ metric_head sample) }
{
    push_text(out, "# HELP ")?;
    push_text(out, metric_name(sample))?;
    push_text(out, " ")?;
    push_text(out, metric_help(sample))?;
    push_text(out, "\n# TYPE ")?;
    push_text(out, metric_name(sample))?;
    push_text(out, " ")?;
    push_text(out, metric_type(sample))?;
    push_text(out, "\n")
}

/// Writes a sample of each service that has it.
fn push_lines<A: Allocator>(
    out: &mut Vec<u8, A>,
    sample: Sample,
    founds: &[FoundService],
) -> Result<(), AllocError>
    ensures { OnOk result (out.new.items ≡ out.old.items ++ flat_map (sample_line sample) founds.now) }
{
    for found in founds {
        push_found(out, sample, found)?;
    }
    Ok(())
}

/// Writes a sample of a service, if it has that sample.
fn push_found<A: Allocator>(
    out: &mut Vec<u8, A>,
    sample: Sample,
    found: &FoundService,
) -> Result<(), AllocError>
    ensures { OnOk result (out.new.items ≡ out.old.items ++ sample_line sample found.now) }
{
    match value_in(sample, found) {
        Some(value) => push_line(out, sample, found.folder, value),
        None => Ok(()),
    }
}

/// Writes the line of a sample with this value.
#[tactic(auto, unfolding(crate::specs::Metrics::valued_line))]
fn push_line<A: Allocator>(
    out: &mut Vec<u8, A>,
    sample: Sample,
    folder: &str,
    value: u64,
) -> Result<(), AllocError>
    ensures { OnOk result (out.new.items ≡ out.old.items ++ valued_line sample folder.now value) }
{
    push_text(out, metric_name(sample))?;
    push_text(out, "{service=\"")?;
    push_label(out, folder)?;
    push_text(out, "\"")?;
    push_labels(out, sample)?;
    push_value(out, value)
}

/// Writes the value of a label.
fn push_label<A: Allocator>(out: &mut Vec<u8, A>, text: &str) -> Result<(), AllocError>
    ensures { OnOk result (out.new.items ≡ out.old.items ++ label_text text.now) }
{
    for byte in text.as_bytes() {
        push_label_byte(out, *byte)?;
    }
    Ok(())
}

/// Writes a byte of the value of a label.
#[tactic(auto, unfolding(crate::specs::Metrics::label_byte))]
fn push_label_byte<A: Allocator>(out: &mut Vec<u8, A>, byte: u8) -> Result<(), AllocError>
    ensures { OnOk result (out.new.items ≡ out.old.items ++ label_byte byte) }
{
    match byte {
        b'\\' => out.extend_from_slice(b"\\\\"),
        b'"' => out.extend_from_slice(b"\\\""),
        b'\n' => out.extend_from_slice(b"\\n"),
        _ => out.extend_from_slice(&[byte]),
    }
}

/// Writes the labels of a sample after that of its service.
#[tactic(auto, unfolding(crate::specs::Metrics::more_labels))]
fn push_labels<A: Allocator>(out: &mut Vec<u8, A>, sample: Sample) -> Result<(), AllocError>
    ensures { OnOk result (out.new.items ≡ out.old.items ++ more_labels sample) }
{
    match sample {
        Sample::InPhase(phase) => {
            push_text(out, ",phase=\"")?;
            push_text(out, phase_name(phase))?;
            push_text(out, "\"")
        }
        _ => Ok(()),
    }
}

/// Writes a value, at the end of a line.
#[tactic(auto, unfolding(crate::specs::Metrics::value_end))]
fn push_value<A: Allocator>(out: &mut Vec<u8, A>, value: u64) -> Result<(), AllocError>
    ensures { OnOk result (out.new.items ≡ out.old.items ++ value_end value) }
{
    let mut buffer = Buffer::new();
    push_text(out, "} ")?;
    push_text(out, buffer.format(value))?;
    push_text(out, "\n")
}
