//! The text of the page.
ghost use Rattle.std.specs.Prelude.{◌≡◌, ◌++◌, codes, OnOk};
ghost use Rattle.std.specs.Option.{option_copied};
ghost use Rattle.cmd_page.specs.Escape.{escaped};
ghost use Rattle.cmd_page.specs.Page.{cell, cells_text, end_text, head_text, heading_text, last_text, picture_in};
ghost use Rattle.cmd_page.specs.Page.{name_text, process_text, restarts_in, row, row_begin, row_end, row_text};

use crate::cells::{
    look_class, push_last, push_picture_in, push_process, push_restarts_in, state_word, status_of,
    wanted_text,
};
use crate::escape::push_escaped;
use crate::text::push_text;
use cmd_report::FoundService;
use std::alloc::{AllocError, Allocator};
use sup_trace::TraceText;
use svc_record::Exit;
use tai_status::{Label, View};

/// Returns what is before the time of the page.
#[tactic(auto, unfolding(crate::specs::Page::head_text))]
fn head_text() -> &'static str
    ensures { result.now ≡ head_text }
{
    "<!DOCTYPE html>
<html lang=\"en\"><head><meta charset=\"utf-8\"><title>Services</title>
<meta name=\"viewport\" content=\"width=device-width, initial-scale=1\">
<meta http-equiv=\"refresh\" content=\"10\">
<meta http-equiv=\"Content-Security-Policy\"
content=\"default-src 'none'; style-src 'unsafe-inline'\">
<style>
:root{color-scheme:light dark;--up:#2e7d32;--warn:#9a6700;--died:#c62828}
@media(prefers-color-scheme:dark){:root{--up:#66bb6a;--warn:#d29922;--died:#ef5350}}
body{font:15px/1.4 system-ui,sans-serif;margin:1rem}
table{border-collapse:collapse;width:100%}
th,td{text-align:left;padding:.3rem .5rem;border-top:1px solid #8884}
tbody th{min-width:5rem;overflow-wrap:anywhere}
td.more{white-space:nowrap}td.up{color:var(--up)}td.warn{color:var(--warn)}
svg{display:block;width:20rem;height:1rem;background:#8882}
rect.up{fill:var(--up)}rect.down{fill:#8888}rect.warn{fill:var(--warn)}
rect.dark{fill:none}rect.died{fill:var(--died)}
@media(max-width:60rem){.more{display:none}svg{width:8rem}}
</style></head><body>
<p>Services at "
}

/// Returns what is between that time and the rows.
#[tactic(auto, unfolding(crate::specs::Page::heading_text))]
fn heading_text() -> &'static str
    ensures { result.now ≡ heading_text }
{
    ". The last hour of each: green is up, gray is down, yellow is paused or about a start.
Red is the end of a process that nobody asked to end.</p>
<table><thead><tr><th>Service</th><th>State</th><th class=\"more\">Since</th>
<th class=\"more\">Process</th>
<th class=\"more\">Wanted</th><th class=\"more\">Restarts in the last hour</th>
<th class=\"more\">Last end</th>
<th>Last hour</th></tr></thead><tbody>
"
}

/// Returns what is after the rows.
#[tactic(auto, unfolding(crate::specs::Page::end_text))]
fn end_text() -> &'static str
    ensures { result.now ≡ end_text }
{
    "</tbody></table></body></html>
"
}

/// Writes what is before the rows, on a page of this local time.
pub(crate) fn push_head<A: Allocator + Clone>(
    alloc: &A,
    out: &mut Vec<u8, A>,
    time: &str,
) -> Result<(), AllocError>
    ensures { OnOk result (out.new.items ≡ out.old.items ++ head_text ++ escaped time.now ++ heading_text) }
{
    push_text(out, head_text())?;
    push_escaped(alloc, out, time)?;
    push_text(out, heading_text())
}

/// Writes what is after the rows.
pub(crate) fn push_end<A: Allocator>(out: &mut Vec<u8, A>) -> Result<(), AllocError>
    ensures { OnOk result (out.new.items ≡ out.old.items ++ end_text) }
{
    push_text(out, end_text())
}

/// Writes the beginning of a cell of a class.
fn push_open<A: Allocator>(out: &mut Vec<u8, A>, class: &str) -> Result<(), AllocError>
    ensures { OnOk result (out.new.items
        ≡ out.old.items ++ codes "<td class=\"" ++ class.now ++ codes "\">") }
{
    push_text(out, "<td class=\"")?;
    push_text(out, class)?;
    push_text(out, "\">")
}

/// Writes the end of a cell.
fn push_close<A: Allocator>(out: &mut Vec<u8, A>) -> Result<(), AllocError>
    ensures { OnOk result (out.new.items ≡ out.old.items ++ codes "</td>") }
{
    push_text(out, "</td>")
}

/// Writes a cell with a word.
#[tactic(auto, unfolding(crate::specs::Page::cell))]
fn push_word<A: Allocator>(out: &mut Vec<u8, A>, class: &str, word: &str) -> Result<(), AllocError>
    ensures { OnOk result (out.new.items ≡ out.old.items ++ cell class.now word.now) }
{
    push_open(out, class)?;
    push_text(out, word)?;
    push_close(out)
}

/// Writes the cell that says since when a service has been in its state.
#[tactic(auto, unfolding(crate::specs::Page::cell))]
fn push_since<A: Allocator + Clone>(
    alloc: &A,
    out: &mut Vec<u8, A>,
    since: &str,
) -> Result<(), AllocError>
    ensures { OnOk result (out.new.items ≡ out.old.items ++ cell (codes "more") (escaped since.now)) }
{
    push_open(out, "more")?;
    push_escaped(alloc, out, since)?;
    push_close(out)
}

/// Writes the cell of the process number.
#[tactic(auto, unfolding(crate::specs::Page::cell))]
fn push_pid<A: Allocator>(out: &mut Vec<u8, A>, status: &Option<View>) -> Result<(), AllocError>
    ensures { OnOk result (out.new.items
        ≡ out.old.items ++ cell (codes "more") (process_text status.now)) }
{
    push_open(out, "more")?;
    push_process(out, status)?;
    push_close(out)
}

/// Writes the cell of the restarts in the last hour.
#[tactic(auto, unfolding(crate::specs::Page::cell))]
fn push_count<A: Allocator, B: Allocator>(
    out: &mut Vec<u8, A>,
    now: &Label,
    status: &Option<View>,
    content: Option<&TraceText<B>>,
) -> Result<(), AllocError>
    ensures { OnOk result (out.new.items ≡ out.old.items
        ++ cell (codes "more") (restarts_in now.now status.now (option_copied content.entry))) }
{
    push_open(out, "more")?;
    push_restarts_in(out, now, status, content)?;
    push_close(out)
}

/// Writes the cell of the last end.
#[tactic(auto, unfolding(crate::specs::Page::cell))]
fn push_ended<A: Allocator>(
    out: &mut Vec<u8, A>,
    now: &Label,
    last: &Option<Exit>,
) -> Result<(), AllocError>
    ensures { OnOk result (out.new.items
        ≡ out.old.items ++ cell (codes "more") (last_text now.now last.now)) }
{
    push_open(out, "more")?;
    push_last(out, now, last)?;
    push_close(out)
}

/// Writes the cell of the picture.
#[tactic(auto, unfolding(crate::specs::Page::cell))]
fn push_hour<A: Allocator + Clone, B: Allocator>(
    alloc: &A,
    out: &mut Vec<u8, A>,
    now: &Label,
    status: &Option<View>,
    content: Option<&TraceText<B>>,
) -> Result<(), AllocError>
    ensures { OnOk result (out.new.items ≡ out.old.items
        ++ cell (codes "hour") (picture_in now.now status.now (option_copied content.entry))) }
{
    push_open(out, "hour")?;
    push_picture_in(alloc, out, now, status, content)?;
    push_close(out)
}

/// Writes the cells after the name of a service.
#[tactic(auto, unfolding(crate::specs::Page::cells_text))]
fn push_cells<A: Allocator + Clone, B: Allocator>(
    alloc: &A,
    out: &mut Vec<u8, A>,
    now: &Label,
    found: &FoundService,
    content: Option<&TraceText<B>>,
    since: &str,
) -> Result<(), AllocError>
    ensures { OnOk result (out.new.items ≡ out.old.items
        ++ cells_text now.now (row found.now (option_copied content.entry) since.now)) }
{
    let status = status_of(&found.look);
    push_word(out, look_class(&found.look), state_word(&found.look))?;
    push_since(alloc, out, since)?;
    push_pid(out, &status)?;
    push_word(out, "more", wanted_text(&status))?;
    push_count(out, now, &status, content)?;
    push_ended(out, now, &found.last)?;
    push_hour(alloc, out, now, &status, content)
}

/// Returns the beginning of a row.
#[tactic(auto, unfolding(crate::specs::Page::row_begin))]
fn row_begin() -> &'static str
    ensures { result.now ≡ row_begin }
{
    "<tr><th scope=\"row\">"
}

/// Writes the first cell of a row.
#[tactic(auto, unfolding(crate::specs::Page::name_text))]
fn push_name<A: Allocator + Clone>(
    alloc: &A,
    out: &mut Vec<u8, A>,
    folder: &str,
) -> Result<(), AllocError>
    ensures { OnOk result (out.new.items ≡ out.old.items ++ name_text folder.now) }
{
    push_text(out, row_begin())?;
    push_escaped(alloc, out, folder)?;
    push_text(out, "</th>")
}

/// Returns the end of a row.
#[tactic(auto, unfolding(crate::specs::Page::row_end))]
fn row_end() -> &'static str
    ensures { result.now ≡ row_end }
{
    "</tr>\n"
}

/// Writes the row of a service, from what was found about it, its trace if there is a readable one, and the local time
/// of its last change of process.
#[tactic(auto, unfolding(crate::specs::Page::row_text))]
pub fn push_row<A: Allocator + Clone, B: Allocator>(
    alloc: &A,
    out: &mut Vec<u8, A>,
    now: &Label,
    found: &FoundService,
    content: Option<&TraceText<B>>,
    since: &str,
) -> Result<(), AllocError>
    ensures { OnOk result (out.new.items ≡ out.old.items
        ++ row_text now.now (row found.now (option_copied content.entry) since.now)) }
{
    push_name(alloc, out, found.folder)?;
    push_cells(alloc, out, now, found, content, since)?;
    push_text(out, row_end())
}
