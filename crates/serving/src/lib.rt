// Serving the queue from its head.
#![tactic(auto)]

ghost use Rattle.std.specs.Prelude.{◌≡◌, length};
ghost use Rattle.model.specs.Places.{used};
ghost use Rattle.model.specs.Bytes.{blocks_of, erase};
ghost use Rattle.model.specs.Rules.{rules};
ghost use Rattle.model.specs.Calls as calls;
ghost use Rattle.model.specs.Pool.{result_of};
ghost use Rattle.serving.specs.Serving.{served_as, Ready};

use layout::{change, header, walk};
use model::{Answer, Attributes, BlockOffset, Entry, Queue, TASKS, Woken};

// While there is a head and it fits, it is granted and noted as woken, behind the `before` tasks that were noted. No free run has more than `most` bytes.
pub fn serve(
    pool: &mut [u8],
    attributes: Attributes,
    entries: [Entry; TASKS],
    mut woken: [Woken; TASKS],
    before: usize,
    most: usize,
) -> Answer
    requires { Ready attributes pool.old entries before most }
    ensures { result_of result pool.new ≡ served_as attributes (erase (blocks_of pool.old) pool.old) woken before (calls.serve (rules attributes (length pool.old)) (calls.blocks (rules attributes (length pool.old))) (blocks_of pool.old) (used entries)) }
{
    // counted, since the list of woken tasks and what is left of the queue begin behind them
    let mut served = 0;
    for e in &entries {
        if e.task == 0 {
            break;
        }
        let need = sizes::need(attributes, e.size);
        if most < need {
            break;
        }
        let Some(spot) = walk::first_fit(pool, need) else {
            break;
        };
        let at = spot.place;
        change::grant_at(pool, at, need, usize::from(e.task));
        woken[before + served] = Woken {
            task: u32::from(e.task),
            code: 0,
            offset: header::offset_of(at),
        };
        served += 1;
    }
    let left = if 0 < served {
        queue::rest(entries, served)
    } else {
        entries
    };
    let queue = Queue {
        attributes,
        entries: left,
    };
    state::answer(0, BlockOffset(0), woken, queue)
}
