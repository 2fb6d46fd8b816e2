//! The texts of whole modules, written by hand. Each stands behind the name of its module, by which
//! the script that hands them to a JavaScript engine finds them.

/// The module `M`.
pub const ONE: &str = r#"const x = 1;
export { x };
"#;

/// The module `Plain`.
pub const PLAIN: &str = r#"const x = (() => { const a = 1; return a; })();
const y = (() => { const $c0 = x; if (true) { return 2; } throw new Error("Failed pattern match"); })();
const z = (() => { const w = 3; return w; })();
export { x, y, z };
"#;

/// The module `Ranks`.
pub const RANKS: &str = r#"import * as $foreign from "./foreign.js";
const f = $foreign["f"];
const g = f(((x) => x));
export { f, g };
"#;

/// The module `Literals`.
pub const LITERALS: &str = r#"const one = 1;
const least = (-2147483648);
const greatest = 2147483647;
const empty = "";
const escapes = "\u0000\b\f\n\r\t\u001f😀";
const text = "a\"b\\c\n\t\u0001/é";
const letter = "\"";
const umlaut = "ü";
const yes = true;
const no = false;
const none = [];
const some = [1, (-2), [3]];
const bare = ({});
const full = ({"b": 1, "a'\"": "v", "B": ({"c": 2})});
export { bare, empty, escapes, full, greatest, least, letter, no, none, one, some, text, umlaut, yes };
"#;

/// The module `Records`.
pub const RECORDS: &str = r#"const base = ({"x": 1, "y": 2, "a b": 3});
const spaced = base["a b"];
const deep = ({...base, "x": base})["x"]["y"];
const swapped = ((r) => ({...r, "y": r["x"], "x": r["y"]}))(base);
const same = ({...base});
export { base, deep, same, spaced, swapped };
"#;

/// The module `Names`.
pub const NAMES: &str = r#"const $$new = 1;
const x = 2;
const x$27$ = 3;
const gr$f6$$df$e = 4;
const _1 = 5;
const $$undefined = 6;
const $1d465$ = 7;
const keep = ((x$) => x$);
const both = ((x$) => ((y) => [x$, x, y, x$27$]));
const words = (($$new$) => (($$this) => [$$new$, $$new, $$this]));
const nothing = undefined;
const kept = keep(8);
const all = both(9)(10);
const said = words(11)(12);
const own = [gr$f6$$df$e, _1, $$undefined, $1d465$];
export { $$new, $$undefined, $1d465$, _1, all, both, gr$f6$$df$e, keep, kept, nothing, own, said, words, x, x$27$ };
"#;

/// The module `Foreign`.
pub const FOREIGN: &str = r#"import * as $foreign from "./foreign.js";
const append = $foreign["append"];
const f$27$ = $foreign["f'"];
const $$new = $foreign["new"];
const both = append("a")("b");
const shadow = ((append$) => append$);
export { $$new, append, both, f$27$ };
"#;

/// The module `Data.Maybe`.
pub const MAYBE: &str = r#"const Nothing = ({"$": "Nothing"});
const Just = ((value0) => ({"$": "Just", "value0": value0}));
export { Just, Nothing };
"#;

/// The module `Pairs`.
pub const PAIRS: &str = r#"const value0 = 0;
const Pair = ((value0$) => ((value1) => ({"$": "Pair", "value0": value0$, "value1": value1})));
const Gr$f6$$df$e = ((value0$) => ({"$": "Größe", "value0": value0$}));
const $$NaN = ({"$": "NaN"});
const one = Pair(1)(Gr$f6$$df$e(2));
const first = ((p) => (() => { const $c0 = p; if ($c0["$"] === "Pair" && $c0["value0"] === 1 && $c0["value1"]["$"] === "Größe") { const n = $c0["value1"]["value0"]; return n; } throw new Error("Failed pattern match"); })());
const two = first(one);
export { $$NaN, Gr$f6$$df$e, Pair, first, one, two, value0 };
"#;

/// The module `Error.É`.
pub const ACCENT: &str = r#"const x = 1;
export { x };
"#;

/// The module `Use`.
pub const USE: &str = r#"import * as Data$Maybe$ from "../Data.Maybe/index.js";
import * as $$Error$$c9$$ from "../Error.É/index.js";
import * as Names$ from "../Names/index.js";
const x = Names$.$$new;
const just = Data$Maybe$.Just(Names$.x$27$);
const other = ((names$27$) => [names$27$, $$Error$$c9$$.x]);
const pair = other(x);
export { just, other, pair, x };
export { Just } from "../Data.Maybe/index.js";
export { $$undefined, keep } from "../Names/index.js";
"#;

/// The module `Again`.
pub const AGAIN: &str = r#"import * as M$ from "../M/index.js";
export { x } from "../M/index.js";
"#;

/// The module `Silent`.
pub const SILENT: &str = r#"const hidden = 1;
"#;

/// The module `Lets`.
pub const LETS: &str = r#"const x = (() => { const a = 1; return a; })();
const shadow = (() => { const x$ = 4; const b = [x$, x]; return b; })();
const even = (() => { const isEven = ((n) => (() => { const $c0 = n; if ($c0 === true) { return isOdd(false); } if ($c0 === false) { return "even"; } throw new Error("Failed pattern match"); })()); const isOdd = ((m) => isEven(m)); return isEven(true); })();
const loop = ((n) => again(n));
const again = ((n) => n);
export { again, even, loop, shadow, x };
"#;

/// The module `Cases`.
pub const CASES: &str =
    r#"const literals = ((v) => (() => { const $c0 = v; if ($c0 === 7) { return "seven"; } if ($c0 === (-7)) { return "minus seven"; } if ($c0 === "a\"b") { return "text"; } if ($c0 === "λ") { return "letter"; } if ($c0 === true) { return "yes"; } if ($c0 === false) { return "no"; } throw new Error("Failed pattern match"); })());
const arrays = ((v) => (() => { const $c0 = v; if ($c0["length"] === 0) { return 0; } if ($c0["length"] === 2 && $c0[1]["length"] === 1 && $c0[1][0] === 5) { const a = $c0[0]; return a; } if ($c0["length"] === 1) { const a = $c0[0]; return a; } throw new Error("Failed pattern match"); })());
const records = ((v) => (() => { const $c0 = v; if ($c0["b"] === 1) { const whole = $c0; const a$27$ = $c0["a'"]; return [whole, a$27$]; } if (true) { return []; } throw new Error("Failed pattern match"); })());
const two = ((v) => ((w) => (() => { const $c0 = v; const $c1 = w; if ($c1 === 2) { const a = $c0; return a; } if ($c0 === 1) { const b = $c1; return b; } if (true) { const whole = $c0; const part = $c0; return [whole, part]; } throw new Error("Failed pattern match"); })()));
const newtypes = ((v) => (() => { const $c0 = v; if ($c0["$"] === "Wrap" && $c0["value0"] === 3) { const n = $c0["value1"]; return n; } throw new Error("Failed pattern match"); })());
const guards = ((v) => ((g) => ((h) => (() => { const $c0 = v; if ($c0 === 1) { if (g) { return "g"; } if (h) { return "h"; } } if (true) { const x = $c0; if (g) { return x; } } if (true) { return "last"; } throw new Error("Failed pattern match"); })())));
const open = (() => { if (true) { return 1; } throw new Error("Failed pattern match"); })();
const none = ((v) => (() => { const $c0 = v; throw new Error("Failed pattern match"); })());
const nested = ((v) => (() => { const $c0 = v; if ($c0["length"] === 1) { const x = $c0[0]; return (() => { const $c0 = x; if ($c0 === 1) { return "one"; } if (true) { const y = $c0; return y; } throw new Error("Failed pattern match"); })(); } if (true) { return "none"; } throw new Error("Failed pattern match"); })());
export { arrays, guards, literals, nested, newtypes, none, open, records, two };
"#;

/// The module `Guards`.
pub const GUARDS: &str =
    r#"const both = ((v) => ((a) => ((b) => (() => { const $c0 = v; if (true) { const x = $c0; if ((() => { const $c0 = a; if ($c0 === true) { return b; } if (true) { return false; } throw new Error("Failed pattern match"); })()) { return "both"; } if (a) { return x; } } if (true) { return "none"; } throw new Error("Failed pattern match"); })())));
const hollow = ((v) => (() => { const $c0 = v; if ($c0 === 1) { } if (true) { return 2; } throw new Error("Failed pattern match"); })());
export { both, hollow };
"#;

/// The module `Binders`.
pub const BINDERS: &str = r#"const Age = ((x) => x);
const given = Age(5);
const years = ((v) => (() => { const $c0 = v; if (true) { const n = $c0; return n; } throw new Error("Failed pattern match"); })());
const names = ((v) => (() => { const $c0 = v; if (true) { const a = $c0; const years$ = $c0; const c = $c0; return [a, years$, c]; } throw new Error("Failed pattern match"); })());
const deep = ((v) => (() => { const $c0 = v; if ($c0["$"] === "Pair" && $c0["value0"]["a b"]["length"] === 2 && $c0["value0"]["a b"][0]["$"] === "Just" && $c0["value0"]["a b"][0]["value0"] === (-1) && $c0["value1"] === false) { const w = $c0["value0"]["a b"][0]; const z = $c0["value0"]["a b"][1]; return [w, z]; } if ($c0["length"] === 1 && $c0[0]["length"] === 0) { return []; } throw new Error("Failed pattern match"); })());
export { Age, deep, given, names, years };
"#;

/// The module `Places`.
pub const PLACES: &str =
    r#"const last = ((v) => (() => { const $s0 = v; return (() => { const $f0 = (($u) => (() => { const $c0 = $s0; if (true) { return "other"; } throw new Error("Failed pattern match"); })()); return (() => { const $c0 = $s0; if ($c0 === 0) { return "zero"; } if (true) { const x = $c0; return (() => { const $c0 = x; if ($c0 === 1) { return "one"; } if (true) { return $f0(undefined); } throw new Error("Failed pattern match"); })(); } if (true) { return $f0(undefined); } throw new Error("Failed pattern match"); })(); })(); })());
const three = ((v) => (() => { const $s0 = v; return (() => { const $f2 = (($u) => (() => { const $c0 = $s0; if (true) { return "other"; } throw new Error("Failed pattern match"); })()); return (() => { const $c0 = $s0; if (true) { const x = $c0; return (() => { const $f0 = (($u) => (() => { const $f1 = (($u) => (() => { const $c0 = x; if ($c0 === 3) { return "three"; } if (true) { return $f2(undefined); } throw new Error("Failed pattern match"); })()); return (() => { const $c0 = x; if ($c0 === 2) { return "two"; } if (true) { return $f1(undefined); } throw new Error("Failed pattern match"); })(); })()); return (() => { const $c0 = x; if ($c0 === 1) { return "one"; } if (true) { return $f0(undefined); } throw new Error("Failed pattern match"); })(); })(); } if (true) { return $f2(undefined); } throw new Error("Failed pattern match"); })(); })(); })());
export { last, three };
"#;

/// The module `S`.
pub const SHOW: &str = r#"import * as $foreign from "./foreign.js";
const append = $foreign["append"];
const show = (($d0) => $d0["show"]);
const Nothing = ({"$": "Nothing"});
const Just = ((value0) => ({"$": "Just", "value0": value0}));
const showMaybe = (($d0) => ({"show": (($0) => (() => { const $c0 = $0; if ($c0["$"] === "Nothing") { return "Nothing"; } if ($c0["$"] === "Just") { const x = $c0["value0"]; return append("Just ")(show($d0)(x)); } throw new Error("Failed pattern match"); })())}));
const twice = (($d0) => ((m) => append(show($d0)(m))(show($d0)(m))));
export { Just, Nothing, append, show, showMaybe, twice };
"#;

/// The module `Ord`.
pub const SUPERS: &str = r#"const lt = (($d0) => $d0["lt"]);
const $Eq_Int = ({"eq": ((a) => ((b) => a))});
const ordInt = ({"$super0": (($u) => $Eq_Int), "lt": ((a) => ((b) => b))});
const same = (($d0) => ((a) => $d0["$super0"](undefined)["eq"](a)(a)));
const yes = same(ordInt)("yes");
export { $Eq_Int, lt, ordInt, same, yes };
"#;

/// The module `W0`.
pub const WORK_0: &str = r#"const f = ((x) => x);
export { f };
"#;

/// The module `W1`.
pub const WORK_1: &str = r#"import * as W0$ from "../W0/index.js";
const f = ((x) => W0$.f(W0$.f(x)));
export { f };
"#;
