// V21: a chart in bytes, read and written again in the writer's form. 0 is success, 12 a buffer with too few places.
#![tactic(auto)]

ghost use Rattle.std.specs.Prelude.{◌≡◌, ◌≤◌};
ghost use Rattle.chart_step.specs.Refusal.{most_refusal};
ghost use Rattle.chart_reader.specs.Read.{read_chart};
ghost use Rattle.chart_rewriter.specs.Write.{write_number, write_at, write_out, ReadsAgain};

// D1 to D6: reads a chart and writes it in the writer's form.
pub fn rewrite(chart: &[u8], out: &mut [u8], at: &mut u64) -> u8
    ensures number { result ≡ write_number (read_chart chart.now) out.old }
    ensures listed { result ≤ most_refusal }
    ensures at { at.new ≡ write_at (read_chart chart.now) out.old }
    ensures bytes { out.new ≡ write_out (read_chart chart.now) out.old }
    ensures again { ReadsAgain chart.now result at.new out.new }
    ensures unchanged { chart.exit.now ≡ chart.entry.now }
{
    let read = chart_reader::read(chart);
    match read.answer {
        Err(fault) => {
            *at = fault.offset as u64;
            u8::from(fault.refusal)
        }
        Ok(()) => {
            let saved = chart_writer::write(read.chart, out);
            *at = chart_writer::size(saved) as u64;
            chart_writer::number(saved)
        }
    }
}
