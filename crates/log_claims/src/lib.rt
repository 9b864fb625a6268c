// What is claimed of reading a log. The walks by which whole logs are judged have no function: the crates above cite
// them.
#![tactic(auto)]

ghost use Rattle.std.specs.Prelude.{◌≡◌};
ghost use Rattle.base.specs.Just.{Just};
ghost use Rattle.log_reader.specs.Record.{said as record_said};
ghost use Rattle.log_claims.specs.Logs.{FindsAs};

use log_reader::{Next, RecordRefusal};

// Reading one record: every byte string and offset.
pub fn read_record(log: &[u8], offset: usize) -> Result<Next, RecordRefusal>
    ensures demand { Just (FindsAs log.now offset) (record_said offset result) }
    ensures unchanged { log.exit.now ≡ log.entry.now }
{
    log_reader::read_record(log, offset)
}
