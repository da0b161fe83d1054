// Finding a call by the list of call record numbers, which stand by action and then state: by halves, nothing is written. The list may come
// from anybody; a place of it is checked when it is read.
#![tactic(auto)]

ghost use Rattle.std.specs.Prelude.{◌≡◌, ◌*◌, ◌≤◌, length};
ghost use Rattle.records.specs.Records.{call_table, call_width};
ghost use Rattle.lookup.specs.Lookup.{look, looked_up};
ghost use Rattle.lookup.specs.Told.{told};

use records::tables;
use refusals::Refusal;
use std::cmp::Ordering;

// A refusal, 0 for none; whether the call is found, 1 or 0; and its record number, 0 where it is not.
// Stays: three numbers, since C sees them; the search inside gives a Result.
#[repr(C)]
#[derive(Clone, Copy, Debug, PartialEq, Eq)]
pub struct Found {
    pub refusal: u64,
    pub found: u64,
    pub row: u64,
}

impl From<Result<Option<u64>, Refusal>> for Found {
    ghost from_gives = { λ searched found. found ≡ told searched };

    fn from(searched: Result<Option<u64>, Refusal>) -> Found {
        match searched {
            Ok(Some(row)) => Found {
                refusal: 0,
                found: 1,
                row,
            },
            Ok(None) => Found {
                refusal: 0,
                found: 0,
                row: 0,
            },
            Err(refusal) => Found {
                refusal: refusal.number(),
                found: 0,
                row: 0,
            },
        }
    }
}

// Looks the call up among the first `count` places of the list: gives its row, if it has one.
fn look(
    calls: &[u64],
    count: usize,
    list: &[u64],
    action: u64,
    state: u64,
) -> Result<Option<u64>, Refusal>
    requires { (call_width * count ≤ length calls.now) × (count ≤ length list.now) }
    ensures { told result ≡ look (call_table calls.now count) list.now (action, state) count 0 count }
{
    let mut low = 0;
    let mut high = count;
    while low < high {
        let place = low + (high - low) / 2;
        let row = list[place];
        if count as u64 <= row {
            return Err(Refusal::BadCallList);
        }
        let row_action = tables::action_of(calls, tables::CALL_WORDS, row as usize);
        let row_state = tables::state_of(calls, tables::CALL_WORDS, row as usize).0;
        match (action, state).cmp(&(row_action, row_state)) {
            Ordering::Equal => return Ok(Some(row)),
            Ordering::Less => high = place,
            Ordering::Greater => low = place + 1,
        }
    }
    Ok(None)
}

// The row of a call by the list, if it has one. The table and the list may come from anybody.
#[tactic(auto, unfolding(crate::specs::Lookup::looked_up))]
fn row_of(
    calls: &[u64],
    count: u64,
    list: &[u64],
    action: u64,
    state: u64,
) -> Result<Option<u64>, Refusal>
    ensures { told result ≡ looked_up calls.now count list.now action state }
{
    if (tables::room_of(calls.len(), tables::CALL_WORDS) as u64) < count {
        return Err(Refusal::BadRecordCount);
    }
    if (list.len() as u64) < count {
        return Err(Refusal::BadCallList);
    }
    look(calls, count as usize, list, action, state)
}

// Finds the record of a call by the list, as C sees it.
pub fn lookup(calls: &[u64], count: u64, list: &[u64], action: u64, state: u64) -> Found
    ensures { result ≡ looked_up calls.now count list.now action state }
{
    Found::from(row_of(calls, count, list, action, state))
}
