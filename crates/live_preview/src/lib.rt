// V20: what a live monitor in bytes would answer, shown in bytes of the caller. 0 is success, 12 a buffer too short.
#![tactic(auto)]

ghost use Rattle.std.specs.Prelude.{◌≡◌, length};
ghost use Rattle.preview.specs.Preview.{preview_number, buffer_of};
ghost use Rattle.monitor_image.specs.MonitorImage.{monitor_in};
ghost use Rattle.live.specs.Live.{chart_in};
ghost use Rattle.live_preview.specs.Preview.{preview_in, regions_told, Foretells};

use model::Moment;
use preview::PreviewRefusal;

// How many regions the chart has, told if it can be shown or the buffer is too short; else 0.
fn regions_told(count: u8, shown: Result<(), PreviewRefusal>) -> u64
    ensures { result ≡ regions_told count shown }
{
    match shown {
        Ok(()) | Err(PreviewRefusal::TooShort) => u64::from(count),
        Err(PreviewRefusal::Feed(_)) => 0,
    }
}

// F1 to F5: shows what the live monitor would answer to each region's message at a moment.
pub fn preview(live: &[u8], time: u32, out: &mut [u8], regions: &mut u64) -> u8
    ensures number { result ≡ preview_number (preview_in live.now time (length out.old)) }
    ensures bytes { out.new
        ≡ buffer_of (chart_in live.now) (monitor_in live.now) (record { 0 = time })
        out.old }
    ensures regions { regions.new
        ≡ regions_told (chart_in live.now).count
        (preview_in live.now time (length out.old)) }
    ensures fed { Foretells live.now time result out.new }
    ensures unchanged { live.exit.now ≡ live.entry.now }
{
    let chart = live::chart_in(live);
    let m = monitor_image::monitor_at(live);
    let shown = preview::preview(chart, m, Moment(time), out);
    *regions = regions_told(chart.count, shown);
    preview::number(shown)
}
