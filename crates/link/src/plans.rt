// The plan program's text.
ghost use Rattle.std.specs.Prelude.{◌≡◌, ◌++◌, length, drop};
ghost use Rattle.planner.specs.Plan.{plan_text};

// The plan's text, and how many bytes it has.
#[unsafe(no_mangle)]
pub extern "C" fn havdorlek_plan(input: &[u8], out: &mut [u8; 3458]) -> usize
    ensures { (result ≡ length (plan_text input.now)) × (out.new ≡ plan_text input.now ++ drop (length (plan_text input.now)) out.old) }
{
    planner::plan(input, out)
}
