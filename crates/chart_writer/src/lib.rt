// Saves a chart (D): puts a chart value in bytes that are read as that chart.
#![tactic(auto)]

ghost use Rattle.std.specs.Prelude.{◌≡◌, true, [], ◌++◌, ◌+◌, ◌≤◌, length};
ghost use Rattle.arrayvec.specs.ArrayVec.{array_vec_len};
ghost use Rattle.chart_reader.specs.Read.{read_chart};
ghost use Rattle.chart_reader.specs.Said.{accepted_as};
ghost use Rattle.chart_value.specs.WellFormed.{well_formed};
ghost use Rattle.chart_value.specs.Writer.{regions_bytes, chart_bytes};
ghost use Rattle.chart_writer.specs.Save.{most_bytes, saved_answer, saved_buffer, saved_number, saved_size};

use arrayvec::ArrayVec;
use chart_command::{END, HEADING, MAIN};
use chart_value::AcceptedChart;
use model::{Chart, NOT_A_CHART, TOO_SHORT};

// D6: no chart has more bytes.
pub const MOST_BYTES: usize = 1_317;

// Why nothing was written: no chart, or a buffer with fewer bytes than the number needed.
#[derive(Clone, Copy)]
pub enum SaveRefusal {
    NotAChart,
    TooShort(usize),
}

// 0, 20 or 12. A function and no From, here and below: Result and u8 are both the library's.
pub fn number(saved: Result<usize, SaveRefusal>) -> u8
    ensures { result ≡ saved_number saved }
{
    match saved {
        Ok(_) => 0,
        Err(SaveRefusal::NotAChart) => NOT_A_CHART,
        Err(SaveRefusal::TooShort(_)) => TOO_SHORT,
    }
}

// The length written or needed; 0 for no chart.
pub fn size(saved: Result<usize, SaveRefusal>) -> usize
    ensures { result ≡ saved_size saved }
{
    match saved {
        Ok(n) => n,
        Err(SaveRefusal::NotAChart) => 0,
        Err(SaveRefusal::TooShort(n)) => n,
    }
}

// The bytes of a chart, made aside.
type Bytes = ArrayVec<u8, MOST_BYTES>;

// D2: the regions in their order, and the byte between the halves before the first one of the main chart.
#[tactic(auto, using(crate::proofs::Laws::regions_fit))]
fn put_regions(out: &mut Bytes, accepted: &AcceptedChart)
    requires { array_vec_len out.old + 1313 ≤ most_bytes }
    ensures items { out.new.items
        ≡ out.old.items ++ regions_bytes accepted.now.chart accepted.now.chart.count 0 [] }
    ensures short { array_vec_len out.new ≤ array_vec_len out.old + 1313 }
{
    let c = &accepted.chart;
    let prechart = usize::from(c.prechart);
    for (i, g) in c.regions[..usize::from(c.count)].iter().enumerate() {
        region_writer::put_flag(out, MAIN, i == prechart);
        region_writer::append_region(out, g);
    }
}

// D2: the whole chart.
fn bytes_of(accepted: &AcceptedChart) -> Bytes
    ensures { result.items ≡ chart_bytes accepted.now.chart }
{
    let mut bytes = ArrayVec::new();
    bytes.push(HEADING);
    bytes.push(accepted.chart.lines);
    bytes.push(accepted.chart.clocks);
    put_regions(&mut bytes, accepted);
    bytes.push(END);
    bytes
}

// D1 to D6: the bytes are made aside, and go into the buffer whole or not at all.
pub fn write(chart: Chart, out: &mut [u8]) -> Result<usize, SaveRefusal>
    ensures answer { result ≡ saved_answer chart out.old }
    ensures buffer { out.new ≡ saved_buffer chart out.old }
    ensures reads { well_formed chart ≡ true → read_chart (chart_bytes chart) ≡ accepted_as chart }
    ensures short { well_formed chart ≡ true → length (chart_bytes chart) ≤ most_bytes }
{
    let Ok(accepted) = AcceptedChart::try_from(chart) else {
        return Err(SaveRefusal::NotAChart);
    };
    let bytes = bytes_of(&accepted);
    if !wire::put_whole(out, bytes.as_slice()) {
        return Err(SaveRefusal::TooShort(bytes.len()));
    }
    Ok(bytes.len())
}
