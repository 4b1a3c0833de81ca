//! Files in which several rules meet, or none is broken though it seems so, and a pair of files, a
//! scoreboard and its model, cut behind each of their tokens. The places were counted by hand.

use crate::tests::{ADD, answer_of, check_line, texts};
use dpi_ports::MemoryFiles;
use std::alloc::Global;
use std::process::Abort;
use std::test::Fail;

/// SystemVerilog files, each alone, with the line that the program prints of it.
const SV_CASES: &[(&str, &str)] = &[
    ("module m; int w[1][1][1][1]; endmodule", "m.sv:1:25: S8\n"),
    (
        "module m; int w[1][1][1][4'd3:0]; endmodule",
        "m.sv:1:25: S8\n",
    ),
    (
        "module m; int w[1][1][1]; endmodule",
        "m.sv:1:1: NotBuilt\n",
    ),
    (
        "module m; int a, b; logic [7:0] v; int w[4]; string s; chandle c; initial a = s + \
         y; endmodule",
        "m.sv:1:83: S5\n",
    ),
    (
        "module m; int a, b; logic [7:0] v; int w[4]; string s; chandle c; initial a = {5, \
         y}; endmodule",
        "m.sv:1:83: S5\n",
    ),
    (
        "module m; int a, b; logic [7:0] v; int w[4]; string s; chandle c; initial \
         $display(\"%d %d\", s, y); endmodule",
        "m.sv:1:84: S24\n",
    ),
    (
        "module m; task t(output int k); endtask initial t(1 + y); endmodule",
        "m.sv:1:51: S13\n",
    ),
    (
        "module m; int a; function int f(int k); return k; endfunction initial a = f(y, 1); \
         endmodule",
        "m.sv:1:75: S12\n",
    ),
    (
        "module m; int a, b; bit [99:0] w; initial w = a + b + w; endmodule",
        "m.sv:1:49: S16\n",
    ),
    (
        "module m; int a, b; bit [99:0] w; initial w = (a + b) & y; endmodule",
        "m.sv:1:57: S5\n",
    ),
    (
        "module m; function int f(); f = 1; endfunction endmodule",
        "m.sv:1:1: NotBuilt\n",
    ),
    (
        "module m; function int f(input int f); endfunction endmodule",
        "m.sv:1:36: S4\n",
    ),
    (
        "module m; function void f(); int f; endfunction endmodule",
        "m.sv:1:1: NotBuilt\n",
    ),
    (
        "module m; int a, b; initial if (a) begin : b end endmodule",
        "m.sv:1:44: S4\n",
    ),
    (
        "module m; initial begin : x begin : y end end int y; endmodule",
        "m.sv:1:1: NotBuilt\n",
    ),
    (
        "module m; u a(); int a; endmodule module u; endmodule",
        "m.sv:1:22: S4\n",
    ),
    (
        "module m; initial begin : b int b; disable b; end endmodule",
        "m.sv:1:44: S23\n",
    ),
    (
        "module m; task t(); endtask function int f(); return 1; endfunction initial begin : \
         b disable b; disable t; end endmodule",
        "m.sv:1:1: NotBuilt\n",
    ),
    (
        "module m; int a; logic [7:0] v; initial a = v[4'd3:0]; endmodule",
        "m.sv:1:47: S8\n",
    ),
    (
        "module m; int a; int w[4]; initial a = w[1:0]; endmodule",
        "m.sv:1:41: S18\n",
    ),
    (
        "module m; int a; logic [7:0] v; initial a = v[7:4][1]; endmodule",
        "m.sv:1:51: S18\n",
    ),
    (
        "module m; int a; initial a = {8'shff{a}}; endmodule",
        "m.sv:1:30: S19\n",
    ),
    (
        "module m; int w[2][2] = '{'{1, 2}, '{3}}; endmodule",
        "m.sv:1:36: S30\n",
    ),
    (
        "module m; function int f(); return \"x\"; endfunction endmodule",
        "m.sv:1:36: S17\n",
    ),
    (
        "module m; string s; initial while (s) ; endmodule",
        "m.sv:1:36: S28\n",
    ),
    (
        "module m; int a; initial begin for (int i = 0; i < 2; i++) ; a = i; end endmodule",
        "m.sv:1:66: S5\n",
    ),
    (
        "module m; int a; initial for (int i = 0; i < a; i++) for (int i = 0; i < a; i++) a \
         += i; endmodule",
        "m.sv:1:1: NotBuilt\n",
    ),
    (
        "module m; string s; initial s = 1; endmodule",
        "m.sv:1:33: S17\n",
    ),
    (
        "module m; string s; initial s += \"x\"; endmodule",
        "m.sv:1:31: S15\n",
    ),
    (
        "module m; int a; u x(); initial a = x; endmodule module u; endmodule",
        "m.sv:1:37: S6\n",
    ),
    (
        "module m; int w[4]; task t(input int k[3]); endtask initial t(w); endmodule",
        "m.sv:1:63: S14\n",
    ),
    (
        "module m; initial y = 1; endmodule module m; endmodule",
        "m.sv:1:19: S5\n",
    ),
    (
        "module m; int a; int a; initial y = 1; endmodule",
        "m.sv:1:22: S4\n",
    ),
    (
        "module m; logic [7:0] v; initial v[0:3] = 1; endmodule",
        "m.sv:1:35: S18\n",
    ),
];

/// The same of C.
const C_CASES: &[(&str, &str)] = &[
    ("int w[65537];", "m.c:1:7: C4\n"),
    ("int w[n(3)];", "m.c:1:7: C2\n"),
    ("int f(int w[n(3)]) { return 0; }", "m.c:1:13: C2\n"),
    ("void n(void); int w[n(3)];", "m.c:1:21: C3\n"),
    ("int f(void) { return 1 = y; }", "m.c:1:26: C2\n"),
    ("int f(int *p) { return p * y; }", "m.c:1:28: C2\n"),
    ("svScope f(void) { return (svScope)y; }", "m.c:1:35: C2\n"),
    (
        "svScope f(void) { svScope s = NULL; s = svSetScope(NULL); return s; }",
        "m.c:1:1: NotBuilt\n",
    ),
    ("int f(svScope s) { return s ? 1 : 2; }", "m.c:1:27: C25\n"),
    ("int f(svScope s) { return !s; }", "m.c:1:27: C10\n"),
    (
        "void f(svScope s, int c) { c ? s : NULL; }",
        "m.c:1:30: C10\n",
    ),
    (
        "int f(int *p) { p = 0u; return p == (0); }",
        "m.c:1:1: NotBuilt\n",
    ),
    ("void f(int *p) { p = '\\0'; }", "m.c:1:22: C9\n"),
    ("void f(void *p) { p + 1; }", "m.c:1:21: C10\n"),
    ("void f(void) { int a[2]; &a; }", "m.c:1:26: C11\n"),
    ("int *f(void) { return (int *)0; }", "m.c:1:23: C18\n"),
    (
        "int *f(void) { return (int *)NULL; }",
        "m.c:1:1: NotBuilt\n",
    ),
    ("void f(int n, int *p) { n += p; }", "m.c:1:27: C10\n"),
    ("extern int x; int x;", "m.c:1:19: C1\n"),
    ("int w[2] = 1;", "m.c:1:10: C19\n"),
    ("void f(void) { int w[1] = {1, 2}; }", "m.c:1:25: C19\n"),
    (
        "void f(void) { svLogicVecVal v = {1, 0}; }",
        "m.c:1:32: C19\n",
    ),
    ("void f(int n) { printf(\"%00d\", n); }", "m.c:1:17: C17\n"),
    ("void f(void) { printf((\"x\")); }", "m.c:1:16: C17\n"),
    (
        "void f(char **p, const char **q) { q = p; }",
        "m.c:1:40: C9\n",
    ),
    (
        "int f(const char *s, char c) { for (int i = 0; s[i]; i++) if (s[i] == c) return i; \
         return -1; }",
        "m.c:1:1: NotBuilt\n",
    ),
    ("int x = y + 1;", "m.c:1:7: C19\n"),
    ("#define printf 1", "m.c:1:1: C21\n"),
    (
        "int f(void) { int a = 1, b = a, c = d; return c; }",
        "m.c:1:37: C2\n",
    ),
    (
        "static int f(int n) { return n > 0 ? f(n - 1) : n; } static int g(int n) { return \
         f(n); }",
        "m.c:1:1: NotBuilt\n",
    ),
];

#[test]
fn the_first_place_and_the_least_rule_count(rt: HostRuntime) -> Result<(), Fail> {
    for &(text, line) in SV_CASES {
        check_line(&rt, rt.alloc(), &["m.sv"], Some(text), None, line)?;
    }
    for &(text, line) in C_CASES {
        check_line(&rt, rt.alloc(), &["m.c"], None, Some(text), line)?;
    }
    Ok(())
}

/// A space stands between any two tokens of the pair, and nowhere else.
const BOARD_SV: &str = "module board ; \
    import \"DPI-C\" context function int check ( inout logic [ 7 : 0 ] seen [ ] , \
    input string who ) ; \
    import \"DPI-C\" task drain ( input chandle queue , output int left ) ; \
    export \"DPI-C\" task hold ; \
    export \"DPI-C\" told = function tell ; \
    logic [ 7 : 0 ] bytes [ 4 ] = '{ 1 , 2 , 8'hzx , '0 } ; \
    chandle queue ; \
    int total ; \
    function automatic int tell ( input int v , output byte unsigned low ) ; \
    int twice = v * 2 ; \
    for ( int i = 0 ; i < 4 ; i ++ ) begin : turn \
    if ( i == 2 ) continue ; else if ( twice > 100 ) disable turn ; else twice += i ; end \
    low = twice [ 7 : 0 ] ; return twice ; endfunction \
    task hold ( inout int t ) ; while ( t > 0 ) begin t -- ; if ( t == 3 ) return ; end endtask \
    initial begin : run \
    repeat ( 2 ) void ' ( check ( bytes , \"model\" ) ) ; \
    drain ( queue , total ) ; \
    case ( bytes [ 0 ] ) 8'h00 , 8'h01 : $display ( \"low:%0d\" , total ) ; \
    default : $display ( \"%b,%h\" , bytes [ 1 ] , { total , bytes [ 2 ] [ 3 +: 4 ] } ) ; endcase \
    total = queue == null ? - total : $signed ( bytes [ 3 ] [ 3 : 0 ] ) ; \
    $finish ( 1 ) ; end endmodule";

/// The model of the scoreboard.
const BOARD_C: &str = "extern int hold ( int * t ) ; \
    extern int told ( int v , unsigned char * low ) ; \
    static int calls ; static const char * last = \"none\" ; \
    int table [ 16 ] = { 1 , 2 , 3 } ; \
    static int twice ( int x ) { return x * 2 ; } \
    int check ( const svOpenArrayHandle h , const char * who ) { \
    unsigned char low = 0 ; int i = 0 ; int sum = 0 ; last = who ; \
    do { svLogicVecVal * p = ( svLogicVecVal * ) svGetArrElemPtr1 ( h , i ) ; \
    if ( p == NULL ) break ; else if ( p -> bval ) continue ; \
    sum += ( int ) ( * p ) . aval ; ++ i ; } while ( i < svSize ( h , 1 ) ) ; \
    table [ i & 15 ] = told ( twice ( sum ) , & low ) + low ; \
    printf ( \"%s:%d:%llu\\n\" , last , sum , 18446744073709551615ull ) ; \
    return sum > 9 ? 1 : 0 ; } \
    int drain ( void * queue , int * left ) { \
    int t = 5 ; calls ++ ; if ( ! queue ) { hold ( & t ) ; } \
    for ( int k = 0 ; k < 2 ; k ++ ) { * left = table [ k ] ^ ( t << 1 ) ; } \
    return 0 ; }";

/// The line of a pair that is accepted and not run.
const NOT_BUILT: &str = "m.sv:1:1: NotBuilt\n";

// the pair ends with status 1, and is accepted or not
fn check_line_of(
    rt: &impl Abort,
    alloc: Global,
    sv: &[u8],
    c: &[u8],
    is_accepted: bool,
) -> Result<(), Fail> {
    let mut files = MemoryFiles::new(alloc, Vec::new(alloc));
    files.add(
        String::from_str(alloc, "m.sv")?,
        Vec::from_slice(alloc, sv)?,
    )?;
    files.add(String::from_str(alloc, "m.c")?, Vec::from_slice(alloc, c)?)?;
    let words = texts(alloc, &["m.sv", "m.c"])?;
    let (answer, _, err) = answer_of(alloc, &words, ADD, files)?;
    assert_eq!(rt; answer.status, 1);
    assert_eq!(rt; err.bytes() == NOT_BUILT.as_bytes(), is_accepted);
    Ok(())
}

#[test]
fn a_pair_that_is_cut_is_refused(rt: HostRuntime) -> Result<(), Fail> {
    let (sv, c) = (BOARD_SV.as_bytes(), BOARD_C.as_bytes());
    check_line_of(&rt, rt.alloc(), sv, c, true)?;
    for (end, byte) in sv.iter().enumerate() {
        if *byte == b' ' {
            check_line_of(&rt, rt.alloc(), &sv[..end], c, false)?;
        }
    }
    for (end, byte) in c.iter().enumerate() {
        if *byte == b' ' {
            check_line_of(&rt, rt.alloc(), sv, &c[..end], false)?;
        }
    }
    Ok(())
}
