// What is claimed of saving a chart, in the contracts of functions that call it.
#![tactic(auto)]

ghost use Rattle.std.specs.Prelude.{◌≡◌, ◌≤◌, length};
ghost use Rattle.chart_value.specs.Given.{Given};
ghost use Rattle.chart_value.specs.Writer.{chart_bytes};
ghost use Rattle.chart_writer.specs.Save.{most_bytes};
ghost use Rattle.save_claims.specs.Saves.{SavesJust, written_length, ReadBack};

use chart_reader::ChartRead;
use chart_writer::SaveRefusal;
use model::Chart;

// Saving a chart: every chart value and buffer. No chart has more than 1,317 bytes.
pub fn save_chart(chart: Chart, out: &mut [u8]) -> Result<usize, SaveRefusal>
    ensures saves { SavesJust chart out.old result out.new }
    ensures most { Given chart → length (chart_bytes chart) ≤ most_bytes }
{
    chart_writer::write(chart, out)
}

// What saving answers, and what is then read from the bytes that were written.
#[derive(Clone, Copy)]
pub struct Resaved {
    pub saved: Result<usize, SaveRefusal>,
    pub read: ChartRead,
}

// The length that was written; 0 after a refusal.
fn written_length(saved: Result<usize, SaveRefusal>) -> usize
    ensures { result ≡ written_length saved }
{
    saved.unwrap_or(0)
}

// Saves a chart, then reads what was written, after a refusal nothing: every chart value and buffer.
pub fn save_then_read(chart: Chart, out: &mut [u8]) -> Resaved
    ensures { ReadBack chart out.new result }
{
    let saved = chart_writer::write(chart, out);
    let n = written_length(saved);
    let read = chart_reader::read(&out[..n]);
    Resaved { saved, read }
}
