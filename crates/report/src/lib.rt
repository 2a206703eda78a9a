// The correction report: the maximal runs of bits at which a received and a settled block differ.
#![tactic(auto)]

ghost use Rattle.std.specs.Prelude.{◌≡◌, ◌+◌, ◌*◌, ◌≤◌, ◌<◌, length};
ghost use Rattle.std.proofs.lemmas.List.Edits.{sets};
ghost use Rattle.bits.specs.Bit.{written};
ghost use Rattle.wiring.specs.PlanParts.{plan_in};
ghost use Rattle.report.specs.Report.{differs_at, run_count, pair_bytes, run_bytes};
ghost use Rattle.report.specs.Answer.{report_answer, report_list, report_reply};
ghost use Rattle.report.specs.Agreement.{Held, Agreeing};

use inner_code::Refusal;
use wiring::{PlanParts, check_block, check_plan};

// Lists the runs of bits at which the received and the settled block differ, in rising order, and answers their number. A run takes four
// bytes of the list, its bit offset and its length, high byte first; what lies behind the last run stays as it was, and with a refusal, 1 to
// 12, 16 or 23, the whole list does.
pub fn report_runs(
    plan: PlanParts<'_, '_>,
    received: &[u8],
    settled: &[u8],
    list: &mut [u8],
) -> Result<usize, Refusal>
    ensures result_value { report_reply result ≡ report_answer (plan_in plan.entry) received.now settled.now list.old }
    ensures list_after { list.new ≡ report_list (plan_in plan.entry) received.now settled.now list.old }
{
    let checked = check_plan(plan)?;
    let edges = checked.edges();
    check_block(edges, received)?;
    check_block(edges, settled)?;
    let count = count_runs(received, settled, edges);
    if list.len() < 4 * count {
        return Err(Refusal::ListShort);
    }
    write_runs(received, settled, edges, list);
    Ok(count)
}

// The number of runs among the first `edges` bits.
fn count_runs(received: &[u8], settled: &[u8], edges: usize) -> usize
    requires { Held received.now settled.now edges }
    ensures { result ≡ run_count (differs_at received.now settled.now) (edges + 1) }
{
    let mut count = 0;
    let mut start = 0;
    let mut i = 0;
    // A while: the index jumps over what agrees.
    while i <= edges {
        let same = agreeing(received, settled, edges, i);
        if same == 0 {
            i += 1;
        } else {
            if start < i {
                count += 1;
            }
            i += same;
            start = i;
        }
    }
    count
}

// Writes the runs among the first `edges` bits to the list, which has room for them.
fn write_runs(received: &[u8], settled: &[u8], edges: usize, list: &mut [u8])
    requires held { Held received.now settled.now edges }
    requires edges_in_bounds { 4 * run_count (differs_at received.now settled.now) (edges + 1) ≤ length list.old }
    ensures { list.new ≡ written (run_bytes (differs_at received.now settled.now) (edges + 1)) list.old }
{
    let mut at = 0;
    let mut offset = 0;
    let mut i = 0;
    // A while: the index jumps over what agrees.
    while i <= edges {
        let same = agreeing(received, settled, edges, i);
        if same == 0 {
            i += 1;
        } else {
            if offset < i {
                put_run(list, at, offset, i - offset);
                at += 4;
            }
            i += same;
            offset = i;
        }
    }
}

// How many bits from bit i on agree: 8 for a whole byte, 1 or 0 for bit i alone. Blocks mostly agree, so most bytes are passed at once.
fn agreeing(received: &[u8], settled: &[u8], edges: usize, i: usize) -> usize
    requires i_le_edges { i ≤ edges }
    requires held { Held received.now settled.now edges }
    ensures { Agreeing received.now settled.now edges i result }
{
    if i % 8 == 0 && i + 8 <= edges && received[i / 8] == settled[i / 8] {
        return 8;
    }
    usize::from(bits::bit(received, i) == bits::bit(settled, i))
}

// Stores one run at the index `at`: its offset and its length, high byte first. By four stores: two copies of `to_be_bytes` took the report of
// 160 runs 3 % longer.
fn put_run(list: &mut [u8], at: usize, offset: usize, size: usize)
    requires at_in_bounds { at + 4 ≤ length list.old }
    requires offset_bound { offset < 65536 }
    requires size_bound { size < 65536 }
    ensures { list.new ≡ sets list.old at (pair_bytes offset size) }
{
    list[at] = (offset / 256) as u8;
    list[at + 1] = (offset % 256) as u8;
    list[at + 2] = (size / 256) as u8;
    list[at + 3] = (size % 256) as u8;
}
