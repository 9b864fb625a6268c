// V18, V20, V21: the exported functions that read one record, that show what a live monitor would answer, and that save
// a chart. 0 is success, 12 a buffer with too few places.
#![tactic(auto)]

ghost use Rattle.std.specs.Prelude.{◌≡◌, ◌≤◌, length};
ghost use Rattle.log_reader.specs.Next.{next_at};
ghost use Rattle.record_numbers.specs.Numbers.{read_number, read_out};
ghost use Rattle.preview.specs.Preview.{preview_number, buffer_of};
ghost use Rattle.monitor_image.specs.MonitorImage.{monitor_in};
ghost use Rattle.live.specs.Live.{chart_in};
ghost use Rattle.live_preview.specs.Preview.{preview_in, regions_told, Foretells};
ghost use Rattle.chart_step.specs.Refusal.{most_refusal};
ghost use Rattle.chart_reader.specs.Read.{read_chart};
ghost use Rattle.chart_rewriter.specs.Write.{write_number, write_at, write_out, ReadsAgain};

// E2 to E4: reads the record at a place of a log.
#[unsafe(no_mangle)]
pub extern "C" fn lsc_read_record(log: &[u8], place: usize, out: &mut [u64]) -> u8
    ensures number { result ≡ read_number (next_at log.now place) out.old }
    ensures numbers { out.new ≡ read_out place (next_at log.now place) out.old }
    ensures unchanged { log.exit.now ≡ log.entry.now }
{
    record_numbers::read(log, place, out)
}

// F1 to F5: shows what the live monitor would answer to each region's message at a moment.
#[unsafe(no_mangle)]
pub extern "C" fn lsc_preview(live: &[u8], time: u32, out: &mut [u8], regions: &mut u64) -> u8
    ensures number { result ≡ preview_number (preview_in live.now time (length out.old)) }
    ensures bytes { out.new
        ≡ buffer_of (chart_in live.now) (monitor_in live.now) (record { 0 = time })
        out.old }
    ensures regions { regions.new
        ≡ regions_told (chart_in live.now).count
        (preview_in live.now time (length out.old)) }
    ensures fed { Foretells live.now time result out.new }
    ensures unchanged { live.exit.now ≡ live.entry.now }
{
    live_preview::preview(live, time, out, regions)
}

// D1 to D6: reads a chart and writes it in the writer's form.
#[unsafe(no_mangle)]
pub extern "C" fn lsc_write(chart: &[u8], out: &mut [u8], at: &mut u64) -> u8
    ensures number { result ≡ write_number (read_chart chart.now) out.old }
    ensures listed { result ≤ most_refusal }
    ensures at { at.new ≡ write_at (read_chart chart.now) out.old }
    ensures bytes { out.new ≡ write_out (read_chart chart.now) out.old }
    ensures again { ReadsAgain chart.now result at.new out.new }
    ensures unchanged { chart.exit.now ≡ chart.entry.now }
{
    chart_rewriter::rewrite(chart, out, at)
}
