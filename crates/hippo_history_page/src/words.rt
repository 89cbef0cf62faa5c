//! The words of a page that are always the same.
ghost use Rattle.std.specs.Prelude.{◌≡◌};
ghost use Rattle.hippo_history_page.specs.Words.{title_start, heading_start, period_start, period_middle, period_end, askers_start, days_start, records_start, page_close, bar_start, bar_middle, bar_end, row_start, row_end, cell_start, cell_end};

#[tactic(auto, unfolding(crate::specs::Words::title_start))]
pub(crate) fn title_start() -> &'static str
    ensures { result.now ≡ title_start }
{
    "<!DOCTYPE html>\n\
    <html lang=\"en\">\n\
    <head>\n\
    <meta charset=\"utf-8\">\n\
    <meta http-equiv=\"Content-Security-Policy\" content=\"default-src 'none'; \
    style-src 'unsafe-inline'\">\n\
    <title>What was disclosed of patient "
}

#[tactic(auto, unfolding(crate::specs::Words::heading_start))]
pub(crate) fn heading_start() -> &'static str
    ensures { result.now ≡ heading_start }
{
    "</title>\n\
    <style>\n\
    body { font-family: sans-serif; margin: 2em; }\n\
    table { border-collapse: collapse; }\n\
    thead { display: table-header-group; }\n\
    tr { break-inside: avoid; }\n\
    th, td { border: 1px solid #999; padding: 0.2em 0.5em; text-align: left; \
    vertical-align: top; }\n\
    td:nth-child(n+7) { overflow-wrap: anywhere; }\n\
    svg { width: 16em; height: 1em; }\n\
    rect { fill: #357; }\n\
    </style>\n\
    </head>\n\
    <body>\n\
    <h1>What was disclosed of patient "
}

#[tactic(auto, unfolding(crate::specs::Words::period_start))]
pub(crate) fn period_start() -> &'static str
    ensures { result.now ≡ period_start }
{
    "</h1>\n<p>From "
}

#[tactic(auto, unfolding(crate::specs::Words::period_middle))]
pub(crate) fn period_middle() -> &'static str
    ensures { result.now ≡ period_middle }
{
    " to "
}

#[tactic(auto, unfolding(crate::specs::Words::period_end))]
pub(crate) fn period_end() -> &'static str
    ensures { result.now ≡ period_end }
{
    ". Number of accesses: "
}

#[tactic(auto, unfolding(crate::specs::Words::askers_start))]
pub(crate) fn askers_start() -> &'static str
    ensures { result.now ≡ askers_start }
{
    ".</p>\n\
    <h2>Accesses by user and purpose</h2>\n\
    <table>\n\
    <thead><tr><th>User</th><th>Purpose</th><th>Accesses</th>\
    <th>Share</th></tr></thead>\n\
    <tbody>\n"
}

#[tactic(auto, unfolding(crate::specs::Words::days_start))]
pub(crate) fn days_start() -> &'static str
    ensures { result.now ≡ days_start }
{
    "</tbody>\n\
    </table>\n\
    <h2>Accesses by day</h2>\n\
    <table>\n\
    <thead><tr><th>Day</th><th>Accesses</th><th>Share</th></tr></thead>\n\
    <tbody>\n"
}

#[tactic(auto, unfolding(crate::specs::Words::records_start))]
pub(crate) fn records_start() -> &'static str
    ensures { result.now ≡ records_start }
{
    "</tbody>\n\
    </table>\n\
    <h2>Accesses</h2>\n\
    <table>\n\
    <thead><tr><th>Entry</th><th>Moment</th><th>User</th><th>Purpose</th>\
    <th>Recipient</th><th>Table</th><th>Key</th><th>Shown</th><th>Tested</th>\
    <th>Denied, with the rule</th></tr></thead>\n\
    <tbody>\n"
}

#[tactic(auto, unfolding(crate::specs::Words::page_close))]
pub(crate) fn page_close() -> &'static str
    ensures { result.now ≡ page_close }
{
    "</tbody>\n</table>\n</body>\n</html>\n"
}

#[tactic(auto, unfolding(crate::specs::Words::bar_start))]
pub(crate) fn bar_start() -> &'static str
    ensures { result.now ≡ bar_start }
{
    "<td><svg preserveAspectRatio=\"none\" viewBox=\"0 0 "
}

#[tactic(auto, unfolding(crate::specs::Words::bar_middle))]
pub(crate) fn bar_middle() -> &'static str
    ensures { result.now ≡ bar_middle }
{
    " 1\"><rect height=\"1\" width=\""
}

#[tactic(auto, unfolding(crate::specs::Words::bar_end))]
pub(crate) fn bar_end() -> &'static str
    ensures { result.now ≡ bar_end }
{
    "\"/></svg></td>"
}

#[tactic(auto, unfolding(crate::specs::Words::row_start))]
pub(crate) fn row_start() -> &'static str
    ensures { result.now ≡ row_start }
{
    "<tr>"
}

#[tactic(auto, unfolding(crate::specs::Words::row_end))]
pub(crate) fn row_end() -> &'static str
    ensures { result.now ≡ row_end }
{
    "</tr>\n"
}

#[tactic(auto, unfolding(crate::specs::Words::cell_start))]
pub(crate) fn cell_start() -> &'static str
    ensures { result.now ≡ cell_start }
{
    "<td>"
}

#[tactic(auto, unfolding(crate::specs::Words::cell_end))]
pub(crate) fn cell_end() -> &'static str
    ensures { result.now ≡ cell_end }
{
    "</td>"
}
