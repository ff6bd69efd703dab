// Composes one plane of a file: select, ask, agree, paint. The plain composer paints bottom tile first, the quick one top tile first.
#![tactic(auto)]

ghost use Rattle.std.specs.Prelude.{◌≡◌, [], ◌∷◌, map, Bool, true, false, cond, not, ℕ, ◌+◌, ◌%◌, ◌≤◌, ◌<◌, ◌^◌, length, get_or, take, eqb};
ghost use Rattle.format.specs.Scan.{scan_of};
ghost use Rattle.format.specs.Checks.{first, row, rows_below};
ghost use Rattle.format.specs.Entry.{pixel_type, pixel_bytes};
ghost use Rattle.format.specs.Directory.{tile_count, entry_place};
ghost use Rattle.plane.specs.Tiles.{area};
ghost use Rattle.plane.specs.Turns.{plain, quick};
ghost use Rattle.plane.specs.Demand2.{Room};
ghost use Rattle.format.specs.Rules.{AcceptedFile};
ghost use Rattle.turns.specs.Turned.{kind_of};
ghost use Rattle.question.specs.Question.{masks_on, type_bad, agree_rows};
ghost use Rattle.question.specs.Call.{Answered};
ghost use Rattle.subblocks.specs.Judged.{Listed};
ghost use Rattle.tiles.specs.FileTile.{paints};
ghost use Rattle.compose.specs.Steps.{chosen_in, Chosen, Edges, Gathered, AddRoom, Added, KeyRoom, KeyPainted, RunRoom, RunDone, PlaneRoom, Begun, PlaneDone, asked, ExamineAnswered};

use format::{Fault, Refusal, Release, Verdict};
use paint::Turn;
use plane::Rect;
use question::{Counts, WindowRequest};

// What a call is given, the lent target and map aside.
#[derive(Clone, Copy)]
struct Question<'a> {
    file: &'a [u8],
    release: Release,
    starts: &'a [i32],
    any_scene: bool,
    request: WindowRequest,
    background: &'a [u8],
}

// A question, its selection, which is a table that has for each entry its place where it is chosen, else 0, and its window in plane coordinates.
#[derive(Clone, Copy)]
struct Selected<'a> {
    question: Question<'a>,
    table: &'a [u64; 4096],
    window: Rect,
}

// ---- agree

// Whether the tile of the entry at e meets the window and has another type than t. No entry stands at 0.
fn disagrees(s: &[u8], e: u64, w: Rect, t: u64) -> bool
    requires listed { (e ≡ 0 → ⊥) → Listed s.now e }
    requires edges { Edges w }
    ensures { result ≡ cond (not (eqb e 0)) (type_bad s.now w t e) false }
{
    if e == 0 || !tiles::meets_window(tiles::rectangle_of(s, e), w) {
        return false;
    }
    entries::pixel_type(s, e) != t
}

// The keys with that of entry k, at e, among them, if its tile takes a turn.
fn add_key(s: &[u8], keys: &mut [u64; 4096], count: usize, k: u64, e: u64, w: Rect) -> usize
    requires { AddRoom s.now keys.old count k e w }
    ensures { Added s.now keys.old count k e w keys.new result }
{
    if e == 0 || !tiles::meets_window(tiles::rectangle_of(s, e), w) {
        return count;
    }
    keys::insert(keys, count, tiles::rank_of(s, k, e));
    count + 1
}

impl Selected<'_> {
    // Refusal 23 over the chosen entries below n, in directory order.
    fn agree(&self, n: u64) -> Verdict
        requires chosen { Chosen self.now.question.file.now self.now.table.now }
        requires n_value { (n ≡ tile_count self.now.question.file.now) × Edges self.now.window }
        ensures { result ≡ first (agree_rows self.now.question.file.now (chosen_in self.now.table.now) self.now.window self.now.question.request.pixel_type) }
    {
        for k in 0..n as usize {
            let e = self.table[k];
            if disagrees(
                self.question.file,
                e,
                self.window,
                self.question.request.pixel_type,
            ) {
                return Err(Refusal {
                    fault: Fault::TileType,
                    place: e,
                });
            }
        }
        Ok(())
    }

    // ---- turns

    // The keys of the entries below n that take a turn, rising; the result is how many there are.
    fn gather(&self, n: u64, keys: &mut [u64; 4096]) -> usize
        requires chosen { Chosen self.now.question.file.now self.now.table.now }
        requires n_value { (n ≡ tile_count self.now.question.file.now) × Edges self.now.window }
        requires keys_len { length keys.old ≡ 4096 }
        ensures { Gathered n self.now.question.file.now self.now.table.now self.now.window keys.new result }
    {
        let mut count = 0;
        for k in 0..n as usize {
            count = add_key(
                self.question.file,
                keys,
                count,
                k as u64,
                self.table[k],
                self.window,
            );
        }
        count
    }

    // The turn of the tile that a key stands for, with the layer that is asked for.
    fn paint_key(&self, target: &mut [u8], map: &mut [u8], key: u64, turn: Turn) -> usize
        requires { KeyRoom target.old map.old (scan_of self.now.question.file.now self.now.question.release) self.now.question.starts.now self.now.table.now key (masks_on self.now.question.request.masks) self.now.window }
        ensures { KeyPainted target.old map.old (scan_of self.now.question.file.now self.now.question.release) self.now.question.starts.now self.now.table.now key (masks_on self.now.question.request.masks) self.now.window turn target.new map.new result }
    {
        let Question {
            file,
            release,
            starts,
            request,
            ..
        } = self.question;
        let e = self.table[(key % 4096) as usize];
        let q = entries::file_position(file, e);
        let l = selection::asked_layer(file, e, starts);
        let on = ask::masks_on(request.masks);
        tiles::paint_entry(
            target,
            map,
            file,
            e,
            file,
            q,
            l,
            release,
            self.window,
            on,
            turn,
        )
    }

    // The turns along keys, one after the other. The result is the store count.
    fn paint_keys(&self, target: &mut [u8], map: &mut [u8], keys: &[u64], turn: Turn) -> u64
        requires { RunRoom target.old map.old (scan_of self.now.question.file.now self.now.question.release) self.now.question.starts.now self.now.table.now keys.now self.now.window self.now.question.request.pixel_type }
        ensures { RunDone (kind_of turn) target.old map.old (paints (scan_of self.now.question.file.now self.now.question.release) self.now.question.starts.now (masks_on self.now.question.request.masks)) keys.now self.now.window self.now.question.request.pixel_type target.new map.new result }
    {
        let mut stored = 0;
        for key in keys.iter() {
            stored += self.paint_key(target, map, *key, turn) as u64;
        }
        stored
    }

    // ---- paint

    // The start: the background pixel everywhere, and a zero map.
    fn begin(&self, target: &mut [u8], map: &mut [u8])
        requires room { Room self.now.window (pixel_bytes self.now.question.request.pixel_type) target.old map.old }
        requires w_bound { (area self.now.window ≤ 4294967296) × (length self.now.question.background.now ≡ pixel_bytes self.now.question.request.pixel_type) }
        ensures { Begun target.old map.old self.now.question.background.now self.now.window self.now.question.request.pixel_type target.new map.new }
    {
        let n = self.window.height * self.window.width;
        let b = entries::pixel_bytes(self.question.request.pixel_type) as usize;
        blank::fill(target, n, b, self.question.background);
        blank::clear(map, n);
    }

    // The plane: the start, then the turns, bottom tile first or top tile first. The covered count is what the quick turns stored, or the map's ones.
    fn paint(&self, target: &mut [u8], map: &mut [u8], turn: Turn) -> Counts
        requires { PlaneRoom target.old map.old (scan_of self.now.question.file.now self.now.question.release) self.now.question.starts.now self.now.table.now self.now.question.background.now self.now.window self.now.question.request.pixel_type }
        ensures { PlaneDone (kind_of turn) target.old map.old (paints (scan_of self.now.question.file.now self.now.question.release) self.now.question.starts.now (masks_on self.now.question.request.masks)) self.now.table.now self.now.question.background.now self.now.window self.now.question.request.pixel_type target.new map.new result }
    {
        self.begin(target, map);
        let mut keys = [0; 4096];
        let count = self.gather(judge::tile_count(self.question.file), &mut keys);
        let keys = &mut keys[..count];
        match turn {
            Turn::Quick => {
                keys.reverse();
                let stored = self.paint_keys(target, map, keys, turn);
                Counts {
                    covered: stored,
                    stored,
                }
            }
            Turn::Plain => {
                let stored = self.paint_keys(target, map, keys, turn);
                let covered = cover::count_ones(map, self.window.height * self.window.width) as u64;
                Counts { covered, stored }
            }
        }
    }
}

// ---- a whole call

impl Question<'_> {
    // All of a call's refusals in their order, of a target and a map of these lengths: those of the file, 20, 21 and 22, then 23. Where there is none, the
    // table holds the selection.
    fn examine(&self, target: u64, map: u64, table: &mut [u64; 4096]) -> Verdict
        requires { length table.old ≡ 4096 }
        ensures { ExamineAnswered (asked self.now.file.now self.now.release self.now.starts.now self.now.any_scene self.now.request self.now.background.now) target map table.new result }
    {
        judge::judge(self.file, self.release)?;
        ask::ask(self.request, self.background, target, map)?;
        let n = selection::select(self.file, self.starts, self.any_scene, table);
        let selected = Selected {
            question: *self,
            table,
            window: ask::window_of(self.request),
        };
        selected.agree(n)
    }

    // A whole call of the composer whose turns are of this kind.
    fn compose(&self, target: &mut [u8], map: &mut [u8], turn: Turn) -> Result<Counts, Refusal>
        ensures { Answered (kind_of turn) (asked self.now.file.now self.now.release self.now.starts.now self.now.any_scene self.now.request self.now.background.now) target.old map.old target.new map.new result }
    {
        let mut table = [0; 4096];
        self.examine(target.len() as u64, map.len() as u64, &mut table)?;
        let selected = Selected {
            question: *self,
            table: &table,
            window: ask::window_of(self.request),
        };
        Ok(selected.paint(target, map, turn))
    }
}

// The plain composer: bottom tile first. Any file bytes, any question, any lent bytes.
pub fn compose_plain(
    s: &[u8],
    release: Release,
    starts: &[i32],
    any_scene: bool,
    f: WindowRequest,
    background: &[u8],
    target: &mut [u8],
    map: &mut [u8],
) -> Result<Counts, Refusal>
    ensures { Answered plain (asked s.now release starts.now any_scene f background.now) target.old map.old target.new map.new result }
{
    let question = Question {
        file: s,
        release,
        starts,
        any_scene,
        request: f,
        background,
    };
    question.compose(target, map, Turn::Plain)
}

// The quick composer: top tile first, each pixel stored at most once. Any file bytes, any question, any lent bytes.
pub fn compose_quick(
    s: &[u8],
    release: Release,
    starts: &[i32],
    any_scene: bool,
    f: WindowRequest,
    background: &[u8],
    target: &mut [u8],
    map: &mut [u8],
) -> Result<Counts, Refusal>
    ensures { Answered quick (asked s.now release starts.now any_scene f background.now) target.old map.old target.new map.new result }
{
    let question = Question {
        file: s,
        release,
        starts,
        any_scene,
        request: f,
        background,
    };
    question.compose(target, map, Turn::Quick)
}
