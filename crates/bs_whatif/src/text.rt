// The texts of points.
ghost use Rattle.std.specs.Prelude.{◌≡◌, ◌<◌, ◌++◌, IfOk, OnOk, length, map, string_bytes};
ghost use Rattle.bs_whatif.specs.Texts.{best_line, point_line, point_lines, points_text, span_line, span_lines, spans_of, spans_text};

use crate::choosing::best;
use crate::figures::Figures;
use bs_num::Tick;
use bs_tree::List;
use std::alloc::{AllocError, Global};
use std::fmt::Write;

/// The text of points, of which there is at least one: a line for each with its waves and its span, and at
/// last the number of the point of least span, the first of equals.
///
/// Points are numbered from 1. The only refusal is want of memory.
pub fn points_text(alloc: Global, figures: &[Figures]) -> Result<Vec<u8>, AllocError>
    requires { 0 < length figures.now }
    ensures { IfOk result (λ text. text.items ≡ points_text figures.now) }
{
    let mut text = String::new(alloc);
    write_points(&mut text, figures)?;
    write_best(&mut text, spans_of(alloc, figures)?.as_slice())?;
    Ok(text.into_bytes())
}

/// The text of points by their spans alone, of which there is at least one: a line for each with its span,
/// and at last the number of the point of least span, the first of equals.
///
/// Points are numbered from 1. The only refusal is want of memory.
pub fn spans_text(alloc: Global, spans: &[Tick]) -> Result<Vec<u8>, AllocError>
    requires { 0 < length spans.now }
    ensures { IfOk result (λ text. text.items ≡ spans_text spans.now) }
{
    let mut text = String::new(alloc);
    write_spans(&mut text, spans)?;
    write_best(&mut text, spans)?;
    Ok(text.into_bytes())
}

fn spans_of(alloc: Global, figures: &[Figures]) -> Result<List<Tick>, AllocError>
    ensures { IfOk result (λ spans. spans ≡ spans_of figures.now) }
{
    let mut spans = List::new(alloc);
    for point in figures {
        spans.push(point.span)?;
    }
    Ok(spans)
}

fn write_points(text: &mut String, figures: &[Figures]) -> Result<(), AllocError>
    ensures { OnOk result (string_bytes text.new ≡ string_bytes text.old ++ point_lines 1 figures.now) }
{
    for (index, point) in figures.iter().enumerate() {
        write_point(text, index + 1, *point)?;
    }
    Ok(())
}

fn write_point(text: &mut String, number: usize, point: Figures) -> Result<(), AllocError>
    ensures { OnOk result (string_bytes text.new ≡ string_bytes text.old ++ point_line number point) }
{
    writeln!(
        text,
        "point {number} waves {} span {}",
        point.waves, point.span.0
    )
}

fn write_spans(text: &mut String, spans: &[Tick]) -> Result<(), AllocError>
    ensures { OnOk result (string_bytes text.new ≡ string_bytes text.old ++ span_lines 1 spans.now) }
{
    for (index, span) in spans.iter().enumerate() {
        write_span(text, index + 1, *span)?;
    }
    Ok(())
}

fn write_span(text: &mut String, number: usize, span: Tick) -> Result<(), AllocError>
    ensures { OnOk result (string_bytes text.new ≡ string_bytes text.old ++ span_line number span) }
{
    writeln!(text, "point {number} span {}", span.0)
}

fn write_best(text: &mut String, spans: &[Tick]) -> Result<(), AllocError>
    requires { 0 < length spans.now }
    ensures { OnOk result (string_bytes text.new ≡ string_bytes text.old ++ best_line spans.now) }
{
    let best = best(spans);
    writeln!(text, "best {best}")
}
