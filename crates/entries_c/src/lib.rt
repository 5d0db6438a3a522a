// The entries for programs in other languages: the archive that c/desk.h declares. Each hands on to the entry of the same name, and
// promises the same.
#![tactic(auto)]

ghost use Rattle.std.specs.Prelude.{◌≡◌, ◌≤◌, length};
ghost use Rattle.rules.specs.Plan.{multiple_of};
ghost use Rattle.rules.specs.Refusal.{plan_check, verdict_answer, set_answer, search_answer, run_answer};
ghost use Rattle.rules.specs.Said.{checked_says, asked_verdict_says, asked_assign_says, asked_outcome_says};
ghost use Rattle.rules.specs.Stints.{stints_answer, stints_listed};
ghost use Rattle.rules.specs.Answer.{answer_of};
ghost use Rattle.rules.specs.Lines.{lines_for};
ghost use Rattle.demand.specs.Quick.{quick_answer};
ghost use Rattle.calendar.specs.Refusals.{date_answer, day_answer};
ghost use Rattle.visits.specs.Texts.{visit_text_check};
ghost use Rattle.tries.specs.Tries.{missing_answer};
ghost use Rattle.entries.specs.Given.{plan_given, releases_given, limit_given, date_given};
ghost use Rattle.lines.specs.Pages.{length_told, page_told};
ghost use Rattle.entries.specs.Told.{row_of, stinted_row, limit_row, missing_row, date_row, day_row, kind_told, places_told, list_told};

// Whether a plan is lawful; if not, the first fault.
#[unsafe(no_mangle)]
pub extern "C" fn desk_check(plan: &[u32], out: &mut [u64]) -> u32
    ensures exact { result ≡ kind_told (row_of (checked_says (plan_check (plan_given plan.now)))) out.old }
    ensures out { out.new ≡ places_told (row_of (checked_says (plan_check (plan_given plan.now))))
        out.old }
    ensures kept { plan.exit.now ≡ plan.entry.now }
{
    entries::desk_check(plan, out)
}

// H, the least common multiple of all T; 100,001 stands for any over 100,000.
#[unsafe(no_mangle)]
pub extern "C" fn desk_multiple(plan: &[u32]) -> u32
    ensures exact { result ≡ multiple_of (plan_given plan.now) }
    ensures kept { plan.exit.now ≡ plan.entry.now }
{
    entries::desk_multiple(plan)
}

// The verdict on a plan with the permissions it carries.
#[unsafe(no_mangle)]
pub extern "C" fn desk_verdict(plan: &[u32], out: &mut [u64]) -> u32
    ensures exact { result ≡ kind_told (row_of (asked_verdict_says (verdict_answer (plan_given plan.now)))) out.old }
    ensures out { out.new ≡ places_told (row_of (asked_verdict_says (verdict_answer (plan_given plan.now))))
        out.old }
    ensures kept { plan.exit.now ≡ plan.entry.now }
{
    entries::desk_verdict(plan, out)
}

// The verdict on a plan with the permission set given.
#[unsafe(no_mangle)]
pub extern "C" fn desk_verdict_with(plan: &[u32], set: u32, out: &mut [u64]) -> u32
    ensures exact { result ≡ kind_told (row_of (asked_verdict_says (set_answer (plan_given plan.now) set))) out.old }
    ensures out { out.new ≡ places_told (row_of (asked_verdict_says (set_answer (plan_given plan.now) set)))
        out.old }
    ensures kept { plan.exit.now ≡ plan.entry.now }
{
    entries::desk_verdict_with(plan, set, out)
}

// The quick verdict on a plan with the permissions it carries.
#[unsafe(no_mangle)]
pub extern "C" fn desk_quick(plan: &[u32], out: &mut [u64]) -> u32
    ensures exact { result ≡ kind_told (row_of (asked_verdict_says (quick_answer (plan_given plan.now)))) out.old }
    ensures out { out.new ≡ places_told (row_of (asked_verdict_says (quick_answer (plan_given plan.now))))
        out.old }
    ensures kept { plan.exit.now ≡ plan.entry.now }
{
    entries::desk_quick(plan, out)
}

// The passing set with the fewest takers, among equals the smallest number.
#[unsafe(no_mangle)]
pub extern "C" fn desk_search(plan: &[u32], out: &mut [u64]) -> u32
    ensures exact { result ≡ kind_told (row_of (asked_assign_says (search_answer (plan_given plan.now)))) out.old }
    ensures out { out.new ≡ places_told (row_of (asked_assign_says (search_answer (plan_given plan.now))))
        out.old }
    ensures kept { plan.exit.now ≡ plan.entry.now }
{
    entries::desk_search(plan, out)
}

// The hardest lawful value of a number of the string at a place with which the plan passes. The number is named by its letter.
#[unsafe(no_mangle)]
pub extern "C" fn desk_limit(plan: &[u32], place: usize, letter: u32, out: &mut [u64]) -> u32
    ensures exact { result ≡ kind_told (limit_row (limit_given (plan_given plan.now) place letter)) out.old }
    ensures out { out.new ≡ places_told (limit_row (limit_given (plan_given plan.now) place letter))
        out.old }
    ensures kept { plan.exit.now ≡ plan.entry.now }
{
    entries::desk_limit(plan, place, letter, out)
}

// How the run ends under a plan and a list of releases.
#[unsafe(no_mangle)]
pub extern "C" fn desk_run(plan: &[u32], releases: &[u32], out: &mut [u64]) -> u32
    ensures exact { result ≡ kind_told
        (row_of (asked_outcome_says (run_answer (plan_given plan.now) (releases_given releases.now))))
        out.old }
    ensures out { out.new ≡ places_told
        (row_of (asked_outcome_says (run_answer (plan_given plan.now) (releases_given releases.now))))
        out.old }
    ensures plan { plan.exit.now ≡ plan.entry.now }
    ensures releases { releases.exit.now ≡ releases.entry.now }
{
    entries::desk_run(plan, releases, out)
}

// Whether a plan can miss: why it cannot, or the days of a run that does.
#[unsafe(no_mangle)]
pub extern "C" fn desk_can_miss(plan: &[u32], out: &mut [u64]) -> u32
    ensures exact { result ≡ kind_told (missing_row (missing_answer (plan_given plan.now))) out.old }
    ensures out { out.new ≡ places_told (missing_row (missing_answer (plan_given plan.now)))
        out.old }
    ensures kept { plan.exit.now ≡ plan.entry.now }
{
    entries::desk_can_miss(plan, out)
}

// The stints of the run under a plan and a list of releases, five numbers each, in the list that is lent. 15,005 places hold them, whatever
// the plan.
#[unsafe(no_mangle)]
pub extern "C" fn desk_stints(
    plan: &[u32],
    releases: &[u32],
    list: &mut [u32],
    out: &mut [u64],
) -> u32
    ensures exact { result ≡ kind_told
        (stinted_row (stints_answer (plan_given plan.now) (releases_given releases.now) (length list.old)))
        out.old }
    ensures out { out.new ≡ places_told
        (stinted_row (stints_answer (plan_given plan.now) (releases_given releases.now) (length list.old)))
        out.old }
    ensures list { list.new ≡ list_told (stints_listed (plan_given plan.now) (releases_given releases.now))
        list.old out.old }
    ensures plan { plan.exit.now ≡ plan.entry.now }
    ensures releases { releases.exit.now ≡ releases.entry.now }
{
    entries::desk_stints(plan, releases, list, out)
}

// Whether a contractor's visit list is accepted for a plan and a list of releases. The list is a text, a line for each visit.
#[unsafe(no_mangle)]
pub extern "C" fn desk_check_visits(
    plan: &[u32],
    releases: &[u32],
    visits: &[u8],
    out: &mut [u64],
) -> u32
    ensures exact { result ≡ kind_told
        (row_of (checked_says (visit_text_check (plan_given plan.now) (releases_given releases.now) visits.now)))
        out.old }
    ensures out { out.new ≡ places_told
        (row_of (checked_says (visit_text_check (plan_given plan.now) (releases_given releases.now) visits.now)))
        out.old }
    ensures plan { plan.exit.now ≡ plan.entry.now }
    ensures releases { releases.exit.now ≡ releases.entry.now }
    ensures visits { visits.exit.now ≡ visits.entry.now }
{
    entries::desk_check_visits(plan, releases, visits, out)
}

// The lines that the desk writes for a plan file. 256 bytes hold them, whatever the file.
#[unsafe(no_mangle)]
pub extern "C" fn desk_answer(text: &[u8], page: &mut [u8]) -> usize
    ensures exact { result ≡ length_told (lines_for (answer_of text.now)) page.old }
    ensures page { page.new ≡ page_told (lines_for (answer_of text.now)) page.old }
    ensures kept { text.exit.now ≡ text.entry.now }
    ensures enough { length (lines_for (answer_of text.now)) ≤ 256 }
{
    entries::desk_answer(text, page)
}

// The date of a day number.
#[unsafe(no_mangle)]
pub extern "C" fn desk_date(day: u32, out: &mut [u64]) -> u32
    ensures exact { result ≡ kind_told (date_row (date_answer day)) out.old }
    ensures out { out.new ≡ places_told (date_row (date_answer day)) out.old }
{
    entries::desk_date(day, out)
}

// The day number of a date.
#[unsafe(no_mangle)]
pub extern "C" fn desk_day(year: u32, month: u32, day: u32, out: &mut [u64]) -> u32
    ensures exact { result ≡ kind_told (day_row (day_answer (date_given year month day))) out.old }
    ensures out { out.new ≡ places_told (day_row (day_answer (date_given year month day))) out.old }
{
    entries::desk_day(year, month, day, out)
}
