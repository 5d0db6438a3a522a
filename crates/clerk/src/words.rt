// Which word is asked for. A new word has its line in `answer` and in `HELP`, and its module.
use super::commands::Command;
use super::dates::{date, day, yearly_days};
use super::drawing::draw;
use super::explain::{demand, why};
use super::export::register_file;
use super::limits::show_slack;
use super::miss::miss;
use super::orders::same_strings;
use super::outside::write;
use super::quick::quick_verdict;
use super::runs::show_run;
use super::save::save;
use super::say;
use super::show::show;
use super::turn::turn;
use super::visiting::{check_visits, own_visits};
use super::whiteboard::{assign, list_sets};
use doors::{Stop, worse};

pub(crate) fn answer(rt: &HostRuntime, command: Command) -> Result<(), Stop> {
    match command.word(0) {
        b"save" => save(
            rt,
            command,
            b"save [FILE], or save FILE SIZE PLACE",
            writing::write,
        ),
        b"table" => save(
            rt,
            command,
            b"table [FILE], or table FILE SIZE PLACE",
            register::table,
        ),
        b"register" => register_file(rt, command),
        b"quick" => quick_verdict(rt, command),
        b"miss" => miss(rt, command),
        b"why" => why(rt, command),
        b"demand" => demand(rt, command),
        b"assign" => assign(rt, command),
        b"sets" => list_sets(rt, command),
        b"bars" => draw(rt, command),
        b"run" => show_run(rt, command),
        b"show" => show(rt, command),
        b"slack" => show_slack(rt, command),
        b"visits" => own_visits(rt, command),
        b"check-visits" => check_visits(rt, command),
        b"same" => same_strings(rt, command),
        b"to-02" => turn(rt, command, b"to-02 [FILE]", turning::to_02),
        b"to-01" => turn(rt, command, b"to-01 [FILE]", turning::to_01),
        b"date" => date(rt, command),
        b"day" => day(rt, command),
        b"yearly" => yearly_days(rt, command),
        b"help" => help(rt),
        b"each" => Err(say::complain(rt, b"each stands in no list of commands")),
        other => Err(say::complain_of(rt, b"no word ", other, b"; clerk help lists them")),
    }
}

// A line a write.
fn help(rt: &HostRuntime) -> Result<(), Stop> {
    let mut ended = Ok(());
    for line in HELP.split_inclusive(|b| *b == b'\n') {
        ended = worse(ended, write(rt, line));
    }
    ended
}

const HELP: &[u8] = b"\
assign [FILE]           write the plan in FILE with the set that the search finds\n\
bars [FILE]             the run of the plan in FILE as bars, a row for each string\n\
check-visits FILE VISITS\n\
\x20                       whether a contractor's visit list is accepted for the plan in FILE\n\
date YYYY-MM-DD         the day number and the weekday of a date\n\
day NUMBER              the date and the weekday of a day number\n\
demand [FILE]           the demand of the plan in FILE, interval by interval, and where the rule is broken\n\
each [COMMANDS]         answer every line of a file of commands\n\
help                    list the words\n\
miss [FILE]             write the plan in FILE with releases that make it miss a deadline:\n\
\x20                       the same strings, new releases, N raised where it must be\n\
quick [FILE]            the quick verdict on the plan in FILE\n\
register FILE N         write the plan file of FILE, an export of the asset register, with N days to run\n\
run [FILE]              the run of the plan in FILE, stint by stint, and how it ends\n\
same FILE FILE          whether two plans hold the same strings in another order: same and the place\n\
\x20                       in the second of each string of the first, or what differs\n\
save [FILE]             write the plan in FILE back\n\
save FILE SIZE PLACE    write it into a page of SIZE bytes, from PLACE on\n\
sets [FILE]             every permission set of the plan in FILE in the search's order, with its verdict\n\
show [FILE]             the plan in FILE in decimal words\n\
slack [FILE]            the verdict on the plan in FILE, and for each string how far each number can go\n\
table [FILE]            the strings of the plan in FILE as rows of the asset register's table\n\
table FILE SIZE PLACE   write them into a page of SIZE bytes, from PLACE on\n\
to-01 [FILE]            write the version 02 file FILE as version 01\n\
to-02 [FILE]            write the version 01 file FILE as version 02\n\
visits [FILE]           the visits of our own run of the plan in FILE: release,first day,length\n\
why [FILE]              where the verdict on the plan in FILE comes from: a pair, string by string\n\
yearly MM-DD EDITION FIRST LAST\n\
\x20                       the days on which a yearly test falls between two dates\n\
With no FILE, and for a FILE that is -, standard input is read.\n";
