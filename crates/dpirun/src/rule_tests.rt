//! For each rule, files that break it and files that are mended, with the line that the program
//! prints of them. The places were counted by hand in the rules' own words: the token that each rule
//! names.

use crate::tests::check_line;
use std::test::Fail;

/// SystemVerilog files, each alone: the rules on declarations and on what they hold.
const SV_DECLARATION_RULES: &[(&str, &str)] = &[
    ("module m; endmodule module m; endmodule", "m.sv:1:28: S1\n"),
    (
        "module m; endmodule module u; endmodule",
        "m.sv:1:1: NotBuilt\n",
    ),
    ("module m; none x(); endmodule", "m.sv:1:11: S2\n"),
    (
        "module m; u x(); endmodule module u; endmodule",
        "m.sv:1:1: NotBuilt\n",
    ),
    (
        "module m; u x(); endmodule module u; u y(); endmodule",
        "m.sv:1:38: S2\n",
    ),
    (
        "module m; u x(); u y(); endmodule module u; endmodule",
        "m.sv:1:1: NotBuilt\n",
    ),
    (
        "module m; u x(); endmodule module u; m y(); endmodule",
        "m.sv:1:11: S2\n",
    ),
    (
        "module m; u x(); endmodule module u; n y(); endmodule module n; endmodule",
        "m.sv:1:1: NotBuilt\n",
    ),
    (
        "module m; u a0(); u a1(); u a2(); u a3(); u a4(); u a5(); u a6(); u a7(); u a8(); u \
         a9(); endmodule module u; v b0(); v b1(); v b2(); v b3(); v b4(); v b5(); v b6(); v \
         b7(); v b8(); v b9(); endmodule module v; w c0(); w c1(); w c2(); w c3(); w c4(); w \
         c5(); w c6(); w c7(); w c8(); w c9(); endmodule module w; endmodule",
        "m.sv:1:83: S3\n",
    ),
    (
        "module m; u a0(); u a1(); u a2(); u a3(); u a4(); u a5(); u a6(); u a7(); u a8(); \
         endmodule module u; v b0(); v b1(); v b2(); v b3(); v b4(); v b5(); v b6(); v b7(); \
         v b8(); v b9(); endmodule module v; w c0(); w c1(); w c2(); w c3(); w c4(); w c5(); \
         w c6(); w c7(); w c8(); w c9(); endmodule module w; endmodule",
        "m.sv:1:1: NotBuilt\n",
    ),
    ("module m; int a; logic a; endmodule", "m.sv:1:24: S4\n"),
    (
        "module m; int a; initial begin int a; end endmodule",
        "m.sv:1:1: NotBuilt\n",
    ),
    (
        "module m; int a; initial a = none; endmodule",
        "m.sv:1:30: S5\n",
    ),
    (
        "module m; initial a = b; int a; int b; endmodule",
        "m.sv:1:1: NotBuilt\n",
    ),
    (
        "module m; export \"DPI-C\" function f; endmodule",
        "m.sv:1:35: S5\n",
    ),
    (
        "module m; export \"DPI-C\" function f; function void f(); endfunction endmodule",
        "m.sv:1:1: NotBuilt\n",
    ),
    (
        "module m; int a; task t(); endtask initial a = t + 1; endmodule",
        "m.sv:1:48: S6\n",
    ),
    (
        "module m; int a; function int t(); return 1; endfunction initial a = t() + 1; \
         endmodule",
        "m.sv:1:1: NotBuilt\n",
    ),
    ("module m;  endmodule : u", "m.sv:1:24: S7\n"),
    ("module m;  endmodule : m", "m.sv:1:1: NotBuilt\n"),
    ("module m; bit [1024:0] w; endmodule", "m.sv:1:15: S8\n"),
    (
        "module m; bit [1023:0] w; endmodule",
        "m.sv:1:1: NotBuilt\n",
    ),
    ("module m; int w[65537]; endmodule", "m.sv:1:16: S8\n"),
    ("module m; int w[65536]; endmodule", "m.sv:1:1: NotBuilt\n"),
    ("module m; int w[0]; endmodule", "m.sv:1:16: S8\n"),
    ("module m; int w[1]; endmodule", "m.sv:1:1: NotBuilt\n"),
    ("module m; int w[4'd3:0]; endmodule", "m.sv:1:17: S8\n"),
    ("module m; int w[-1:2]; endmodule", "m.sv:1:1: NotBuilt\n"),
    ("module m; string w[2]; endmodule", "m.sv:1:18: S9\n"),
    ("module m; string w; endmodule", "m.sv:1:1: NotBuilt\n"),
    (
        "module m; function void g(input k); endfunction endmodule",
        "m.sv:1:33: S10\n",
    ),
    (
        "module m; function void g(input int k, l); endfunction endmodule",
        "m.sv:1:1: NotBuilt\n",
    ),
    (
        "module m; import \"DPI-C\" function void g(input integer k[]); endmodule",
        "m.sv:1:56: S11\n",
    ),
    (
        "module m; int a; function int f(int k); return k; endfunction initial a = f(1, 2); \
         endmodule",
        "m.sv:1:75: S12\n",
    ),
    (
        "module m; int a; function int f(int k); return k; endfunction initial a = f(1); \
         endmodule",
        "m.sv:1:1: NotBuilt\n",
    ),
    (
        "module m; int a; task g(output int k); endtask initial g(a + 1); endmodule",
        "m.sv:1:58: S13\n",
    ),
    (
        "module m; int a; task g(output int k); endtask initial g(a); endmodule",
        "m.sv:1:1: NotBuilt\n",
    ),
    (
        "module m; int k[4]; int w[3]; initial k = w; endmodule",
        "m.sv:1:43: S14\n",
    ),
    (
        "module m; int k[4]; int w[3:0]; initial k = w; endmodule",
        "m.sv:1:1: NotBuilt\n",
    ),
    (
        "module m; import \"DPI-C\" function void g(input bit [] k); logic [7:0] v; initial \
         g(v); endmodule",
        "m.sv:1:84: S14\n",
    ),
];

/// SystemVerilog files, each alone: the rules on expressions and statements.
const SV_STATEMENT_RULES: &[(&str, &str)] = &[
    (
        "module m; int a, b; logic [7:0] v; int w[4]; string s; chandle c; initial a = s + \
         1; endmodule",
        "m.sv:1:81: S15\n",
    ),
    (
        "module m; int a, b; logic [7:0] v; int w[4]; string s; chandle c; initial a = s == \
         \"x\"; endmodule",
        "m.sv:1:1: NotBuilt\n",
    ),
    (
        "module m; int a, b; logic [7:0] v; int w[4]; string s; chandle c; bit [64:0] x; \
         initial x = a + b; endmodule",
        "m.sv:1:95: S16\n",
    ),
    (
        "module m; int a, b; logic [7:0] v; int w[4]; string s; chandle c; bit [64:0] x; \
         initial x = a & b; endmodule",
        "m.sv:1:1: NotBuilt\n",
    ),
    (
        "module m; int a, b; logic [7:0] v; int w[4]; string s; chandle c; initial a = s; \
         endmodule",
        "m.sv:1:79: S17\n",
    ),
    (
        "module m; int a, b; logic [7:0] v; int w[4]; string s; chandle c; initial c = null; \
         endmodule",
        "m.sv:1:1: NotBuilt\n",
    ),
    (
        "module m; int a, b; logic [7:0] v; int w[4]; string s; chandle c; initial a = \
         v[0:3]; endmodule",
        "m.sv:1:80: S18\n",
    ),
    (
        "module m; int a, b; logic [7:0] v; int w[4]; string s; chandle c; initial a = \
         v[3:0]; endmodule",
        "m.sv:1:1: NotBuilt\n",
    ),
    (
        "module m; int a, b; logic [7:0] v; int w[4]; string s; chandle c; initial a = {5, \
         v}; endmodule",
        "m.sv:1:79: S19\n",
    ),
    (
        "module m; int a, b; logic [7:0] v; int w[4]; string s; chandle c; initial a = {(5), \
         v}; endmodule",
        "m.sv:1:1: NotBuilt\n",
    ),
    ("module m; initial break; endmodule", "m.sv:1:19: S20\n"),
    (
        "module m; initial forever break; endmodule",
        "m.sv:1:1: NotBuilt\n",
    ),
    ("module m; initial return; endmodule", "m.sv:1:19: S21\n"),
    (
        "module m; function void g(); return; endfunction endmodule",
        "m.sv:1:1: NotBuilt\n",
    ),
    (
        "module m; int a; function void t(); endfunction initial a = t(); endmodule",
        "m.sv:1:61: S22\n",
    ),
    (
        "module m; function void t(); endfunction initial t(); endmodule",
        "m.sv:1:1: NotBuilt\n",
    ),
    (
        "module m; task t(); endtask function void g(); t(); endfunction endmodule",
        "m.sv:1:48: S22\n",
    ),
    (
        "module m; task t(); endtask task g(); t(); endtask endmodule",
        "m.sv:1:1: NotBuilt\n",
    ),
    (
        "module m; int a; initial disable a; endmodule",
        "m.sv:1:34: S23\n",
    ),
    (
        "module m; task t(); endtask initial disable t; endmodule",
        "m.sv:1:1: NotBuilt\n",
    ),
    (
        "module m; int a, b; logic [7:0] v; int w[4]; string s; chandle c; initial \
         $display(\"%d\", s); endmodule",
        "m.sv:1:84: S24\n",
    ),
    (
        "module m; int a, b; logic [7:0] v; int w[4]; string s; chandle c; initial \
         $display(\"%0d %s\", a, s); endmodule",
        "m.sv:1:1: NotBuilt\n",
    ),
    (
        "module m; int a, b; logic [7:0] v; int w[4]; string s; chandle c; initial case (a) \
         \"x\": ; endcase endmodule",
        "m.sv:1:75: S25\n",
    ),
    (
        "module m; int a, b; logic [7:0] v; int w[4]; string s; chandle c; initial case (s) \
         \"x\": ; endcase endmodule",
        "m.sv:1:1: NotBuilt\n",
    ),
    (
        "module m; initial begin int k = 1; end endmodule",
        "m.sv:1:31: S26\n",
    ),
    (
        "module m; function automatic void g(); int k = 1; endfunction endmodule",
        "m.sv:1:1: NotBuilt\n",
    ),
    (
        "module m; function void g(int k0, int k1, int k2, int k3, int k4, int k5, int k6, \
         int k7, int k8, int k9, int k10, int k11, int k12, int k13, int k14, int k15, int \
         k16, int k17, int k18, int k19, int k20, int k21, int k22, int k23, int k24, int \
         k25, int k26, int k27, int k28, int k29, int k30, int k31, int k32, int k33, int \
         k34, int k35, int k36, int k37, int k38, int k39, int k40, int k41, int k42, int \
         k43, int k44, int k45, int k46, int k47, int k48, int k49, int k50, int k51, int \
         k52, int k53, int k54, int k55, int k56, int k57, int k58, int k59, int k60, int \
         k61, int k62, int k63, int k64); endfunction endmodule",
        "m.sv:1:597: S27\n",
    ),
    (
        "module m; function void g(int k0, int k1, int k2, int k3, int k4, int k5, int k6, \
         int k7, int k8, int k9, int k10, int k11, int k12, int k13, int k14, int k15, int \
         k16, int k17, int k18, int k19, int k20, int k21, int k22, int k23, int k24, int \
         k25, int k26, int k27, int k28, int k29, int k30, int k31, int k32, int k33, int \
         k34, int k35, int k36, int k37, int k38, int k39, int k40, int k41, int k42, int \
         k43, int k44, int k45, int k46, int k47, int k48, int k49, int k50, int k51, int \
         k52, int k53, int k54, int k55, int k56, int k57, int k58, int k59, int k60, int \
         k61, int k62, int k63); endfunction endmodule",
        "m.sv:1:1: NotBuilt\n",
    ),
    (
        "module m; int a, b; logic [7:0] v; int w[4]; string s; chandle c; initial if (s) ; \
         endmodule",
        "m.sv:1:79: S28\n",
    ),
    (
        "module m; int a, b; logic [7:0] v; int w[4]; string s; chandle c; initial if (c) ; \
         endmodule",
        "m.sv:1:1: NotBuilt\n",
    ),
    (
        "module m; int a, b; logic [7:0] v; int w[4]; string s; chandle c; initial repeat \
         (c) ; endmodule",
        "m.sv:1:83: S28\n",
    ),
    (
        "module m; int a, b; logic [7:0] v; int w[4]; string s; chandle c; initial repeat \
         (a) ; endmodule",
        "m.sv:1:1: NotBuilt\n",
    ),
    (
        "module m; function int f(); return 1; endfunction int k = f(); endmodule",
        "m.sv:1:59: S29\n",
    ),
    (
        "module m; int a; int k = a + 1; endmodule",
        "m.sv:1:1: NotBuilt\n",
    ),
    (
        "module m; int a, b; logic [7:0] v; int w[4]; string s; chandle c; initial w = '{1, \
         2}; endmodule",
        "m.sv:1:79: S30\n",
    ),
    (
        "module m; int a, b; logic [7:0] v; int w[4]; string s; chandle c; initial w = '{1, \
         2, 3, 4}; endmodule",
        "m.sv:1:1: NotBuilt\n",
    ),
];

/// C files, each alone.
const C_RULES: &[(&str, &str)] = &[
    ("int n; char n;", "m.c:1:13: C1\n"),
    ("int g(int); int g(int k);", "m.c:1:1: NotBuilt\n"),
    ("int f(int n) { char n; return 1; }", "m.c:1:21: C1\n"),
    (
        "int f(int n) { { char n; } return n; }",
        "m.c:1:1: NotBuilt\n",
    ),
    ("int f(void) { return none; }", "m.c:1:22: C2\n"),
    ("int f(void) { return f(); }", "m.c:1:1: NotBuilt\n"),
    (
        "int f(void) { int n = k; int k; return n; }",
        "m.c:1:23: C2\n",
    ),
    (
        "int f(void) { int k; int n = k; return n; }",
        "m.c:1:1: NotBuilt\n",
    ),
    ("int n; int f(void) { return n(1); }", "m.c:1:29: C3\n"),
    ("int n; int f(void) { return n; }", "m.c:1:1: NotBuilt\n"),
    ("int n; int w[n];", "m.c:1:14: C3\n"),
    ("int w[SV_PACKED_DATA_NELEMS(40)];", "m.c:1:1: NotBuilt\n"),
    ("int w[0];", "m.c:1:7: C4\n"),
    ("int w[65536];", "m.c:1:1: NotBuilt\n"),
    ("void w;", "m.c:1:6: C5\n"),
    ("void *w;", "m.c:1:1: NotBuilt\n"),
    ("int g(int); char g(int);", "m.c:1:18: C6\n"),
    ("int g(int); int g(const int k);", "m.c:1:1: NotBuilt\n"),
    (
        "int g(void) { return 1; } int g(void) { return 2; }",
        "m.c:1:31: C7\n",
    ),
    (
        "int g(void); int g(void) { return 2; }",
        "m.c:1:1: NotBuilt\n",
    ),
    (
        "int g(int k) { return k; } int f(void) { return g(1, 2); }",
        "m.c:1:49: C8\n",
    ),
    (
        "int g(int k) { return k; } int f(void) { return g(1); }",
        "m.c:1:1: NotBuilt\n",
    ),
    (
        "int f(svOpenArrayHandle h) { return svSize(h); }",
        "m.c:1:37: C8\n",
    ),
    (
        "int f(svOpenArrayHandle h) { return svSize(h, 1); }",
        "m.c:1:1: NotBuilt\n",
    ),
    ("int f(int *p) { return p; }", "m.c:1:24: C9\n"),
    ("int *f(int *p) { return p; }", "m.c:1:1: NotBuilt\n"),
    ("int *f(const int *q) { return q; }", "m.c:1:31: C9\n"),
    ("const int *f(int *q) { return q; }", "m.c:1:1: NotBuilt\n"),
    ("int f(int *p, int n) { return p * n; }", "m.c:1:33: C10\n"),
    (
        "int *f(int *p, int n) { return p + n; }",
        "m.c:1:1: NotBuilt\n",
    ),
    ("void f(int n) { 1 = n; }", "m.c:1:19: C11\n"),
    ("void f(int *p, int n) { *p = n; }", "m.c:1:1: NotBuilt\n"),
    ("void f(const int *q) { *q = 1; }", "m.c:1:27: C12\n"),
    (
        "void f(const int *q, const int *p) { q = p; }",
        "m.c:1:1: NotBuilt\n",
    ),
    ("int f(int n) { return *n; }", "m.c:1:23: C13\n"),
    ("int f(int *n) { return *n; }", "m.c:1:1: NotBuilt\n"),
    ("int f(svLogicVecVal e) { return e.x; }", "m.c:1:35: C14\n"),
    (
        "unsigned f(svLogicVecVal e) { return e.aval; }",
        "m.c:1:1: NotBuilt\n",
    ),
    ("void k(void) { break; }", "m.c:1:16: C15\n"),
    (
        "void k(void) { do break; while (1); }",
        "m.c:1:1: NotBuilt\n",
    ),
    ("void k(void) { return 1; }", "m.c:1:16: C16\n"),
    ("int k(void) { return 1; }", "m.c:1:1: NotBuilt\n"),
    (
        "int f(int *p) { return printf(\"%d\", p); }",
        "m.c:1:24: C17\n",
    ),
    (
        "int f(int n) { return printf(\"%d\", n); }",
        "m.c:1:1: NotBuilt\n",
    ),
    ("int f(int *p) { return (int)p; }", "m.c:1:24: C18\n"),
    (
        "char *f(int *p) { return (char *)p; }",
        "m.c:1:1: NotBuilt\n",
    ),
    (
        "int f(int n) { static int w = n; return w; }",
        "m.c:1:29: C19\n",
    ),
    (
        "int f(int n) { static int w = -1; return w; }",
        "m.c:1:1: NotBuilt\n",
    ),
    ("int w[1] = {1, 2};", "m.c:1:10: C19\n"),
    ("int w[2] = {1, 2};", "m.c:1:1: NotBuilt\n"),
    (
        "void f(int k0, int k1, int k2, int k3, int k4, int k5, int k6, int k7, int k8, int \
         k9, int k10, int k11, int k12, int k13, int k14, int k15, int k16, int k17, int \
         k18, int k19, int k20, int k21, int k22, int k23, int k24, int k25, int k26, int \
         k27, int k28, int k29, int k30, int k31, int k32, int k33, int k34, int k35, int \
         k36, int k37, int k38, int k39, int k40, int k41, int k42, int k43, int k44, int \
         k45, int k46, int k47, int k48, int k49, int k50, int k51, int k52, int k53, int \
         k54, int k55, int k56, int k57, int k58, int k59, int k60, int k61, int k62, int \
         k63, int k64);",
        "m.c:1:6: C20\n",
    ),
    (
        "void f(int k0, int k1, int k2, int k3, int k4, int k5, int k6, int k7, int k8, int \
         k9, int k10, int k11, int k12, int k13, int k14, int k15, int k16, int k17, int \
         k18, int k19, int k20, int k21, int k22, int k23, int k24, int k25, int k26, int \
         k27, int k28, int k29, int k30, int k31, int k32, int k33, int k34, int k35, int \
         k36, int k37, int k38, int k39, int k40, int k41, int k42, int k43, int k44, int \
         k45, int k46, int k47, int k48, int k49, int k50, int k51, int k52, int k53, int \
         k54, int k55, int k56, int k57, int k58, int k59, int k60, int k61, int k62, int \
         k63);",
        "m.c:1:1: NotBuilt\n",
    ),
    ("int svLeft;", "m.c:1:5: C21\n"),
    ("int sv_left;", "m.c:1:1: NotBuilt\n"),
    ("int ***w;", "m.c:1:8: C22\n"),
    ("int **w;", "m.c:1:1: NotBuilt\n"),
    ("extern int w = 1;", "m.c:1:12: C23\n"),
    ("int w = 1;", "m.c:1:1: NotBuilt\n"),
    (
        "int w[2]; void f(void) { extern int w[sv_x]; }",
        "m.c:1:37: C24\n",
    ),
    (
        "int w[3]; void f(void) { extern int w[sv_x]; }",
        "m.c:1:1: NotBuilt\n",
    ),
    (
        "void f(svOpenArrayHandle h) { if (h) ; }",
        "m.c:1:35: C25\n",
    ),
    (
        "void f(svOpenArrayHandle h) { if (h != NULL) ; }",
        "m.c:1:1: NotBuilt\n",
    ),
];

/// Both files together. The last rows show that C's rules come before those of linking, these in
/// SystemVerilog files before those in C files, and what is mended of S11 and S14.
const LINK_RULES: &[(&str, &str, &str)] = &[
    (
        "module m; import \"DPI\" function void f(); endmodule",
        "void f(void) {}",
        "m.sv:1:18: L1\n",
    ),
    (
        "module m; import \"DPI-C\" function void f(); endmodule",
        "void f(void) {}",
        "m.sv:1:1: NotBuilt\n",
    ),
    (
        "module m; import \"DPI-C\" pure function void f(); endmodule",
        "void f(void) {}",
        "m.sv:1:45: L2\n",
    ),
    (
        "module m; import \"DPI-C\" pure function int f(input int a); endmodule",
        "int f(int a) { return a; }",
        "m.sv:1:1: NotBuilt\n",
    ),
    (
        "module m; import \"DPI-C\" function bit [7:0] f(); endmodule",
        "char f(void) { return 1; }",
        "m.sv:1:45: L3\n",
    ),
    (
        "module m; import \"DPI-C\" function byte f(); endmodule",
        "char f(void) { return 1; }",
        "m.sv:1:1: NotBuilt\n",
    ),
    (
        "module m; export \"DPI-C\" function f; function void f(input integer a); \
         endfunction endmodule",
        "",
        "m.sv:1:68: L4\n",
    ),
    (
        "module m; export \"DPI-C\" function f; function void f(input logic [31:0] a); \
         endfunction endmodule",
        "",
        "m.sv:1:1: NotBuilt\n",
    ),
    (
        "module m; import \"DPI-C\" function void f(input int a); import \"DPI-C\" f = \
         function void g(input int unsigned a); endmodule",
        "void f(int a) {}",
        "m.sv:1:89: L5\n",
    ),
    (
        "module m; import \"DPI-C\" function void f(input bit [7:0] a); import \"DPI-C\" f = \
         function void g(input bit [8:1] b); endmodule",
        "void f(const svBitVecVal *a) {}",
        "m.sv:1:1: NotBuilt\n",
    ),
    (
        "module m; import \"DPI-C\" function void f(); endmodule",
        "static void f(void) {}",
        "m.sv:1:40: L6\n",
    ),
    (
        "module m; import \"DPI-C\" function void f(); endmodule",
        "void f(void) {}",
        "m.sv:1:1: NotBuilt\n",
    ),
    (
        "module m; import \"DPI-C\" function int f(input int a); endmodule",
        "int f(int *a) { return *a; }",
        "m.sv:1:39: L7\n",
    ),
    (
        "module m; import \"DPI-C\" function int f(input int a); endmodule",
        "int f(const int a) { return a; }",
        "m.sv:1:1: NotBuilt\n",
    ),
    (
        "module m; export \"DPI-C\" task f; function void f(); endfunction endmodule",
        "",
        "m.sv:1:31: L8\n",
    ),
    (
        "module m; export \"DPI-C\" function f; function void f(); endfunction endmodule",
        "",
        "m.sv:1:1: NotBuilt\n",
    ),
    (
        "module m; export \"DPI-C\" function f; export \"DPI-C\" f = function g; function \
         void f(); endfunction function void g(); endfunction endmodule",
        "",
        "m.sv:1:66: L9\n",
    ),
    (
        "module m; export \"DPI-C\" function f; export \"DPI-C\" h = function f; function \
         void f(); endfunction endmodule",
        "",
        "m.sv:1:1: NotBuilt\n",
    ),
    (
        "module m; export \"DPI-C\" function f; function void f(input int a); endfunction \
         endmodule module n; export \"DPI-C\" function f; function void f(input byte a); \
         endfunction endmodule",
        "",
        "m.sv:1:124: L10\n",
    ),
    (
        "module m; export \"DPI-C\" function f; function void f(input int a); endfunction \
         endmodule module n; export \"DPI-C\" function f; function void f(input int b); \
         endfunction endmodule",
        "",
        "m.sv:1:1: NotBuilt\n",
    ),
    (
        "module m; export \"DPI-C\" function f; function bit [7:0] f(); return 1; \
         endfunction endmodule",
        "",
        "m.sv:1:35: L11\n",
    ),
    (
        "module m; export \"DPI-C\" function f; function byte f(); return 1; endfunction \
         endmodule",
        "",
        "m.sv:1:1: NotBuilt\n",
    ),
    (
        "module m; function void f(); endfunction endmodule",
        "void f(void); void g(void) { f(); }",
        "m.c:1:30: L12\n",
    ),
    (
        "module m; export \"DPI-C\" function f; function void f(); endfunction endmodule",
        "void f(void); void g(void) { f(); }",
        "m.sv:1:1: NotBuilt\n",
    ),
    (
        "module m; export \"DPI-C\" function f; function void f(input int a); endfunction \
         endmodule",
        "void f(char); void g(void) { f(1); }",
        "m.c:1:30: L13\n",
    ),
    (
        "module m; export \"DPI-C\" function f; function void f(input int a); endfunction \
         endmodule",
        "void f(int); void g(void) { f(1); }",
        "m.sv:1:1: NotBuilt\n",
    ),
    (
        "module m; export \"DPI-C\" printf = function f; function void f(); endfunction endmodule",
        "",
        "m.sv:1:44: L14\n",
    ),
    (
        "module m; export \"DPI-C\" show = function f; function void f(); endfunction endmodule",
        "",
        "m.sv:1:1: NotBuilt\n",
    ),
    (
        "module m; export \"DPI-C\" function f; function void f(); endfunction endmodule",
        "void f(void) {}",
        "m.sv:1:35: L14\n",
    ),
    (
        "module m; import \"DPI-C\" function void f(); endmodule",
        "void g(void) { break; }",
        "m.c:1:16: C15\n",
    ),
    (
        "module m; import \"DPI-C\" function void f(); endmodule",
        "void f(void); void g(void) { f(); }",
        "m.sv:1:40: L6\n",
    ),
    (
        "module m; import \"DPI-C\" function void g(input logic [31:0] k[]); endmodule",
        "void g(svOpenArrayHandle k) {}",
        "m.sv:1:1: NotBuilt\n",
    ),
    (
        "module m; import \"DPI-C\" function void g(input logic [] k); logic [7:0] v; \
         initial g(v); endmodule",
        "void g(svOpenArrayHandle k) {}",
        "m.sv:1:1: NotBuilt\n",
    ),
];

#[test]
fn each_rule_on_declarations_stands_at_its_token(rt: HostRuntime) -> Result<(), Fail> {
    for &(text, line) in SV_DECLARATION_RULES {
        check_line(&rt, rt.alloc(), &["m.sv"], Some(text), None, line)?;
    }
    Ok(())
}

#[test]
fn each_rule_on_statements_stands_at_its_token(rt: HostRuntime) -> Result<(), Fail> {
    for &(text, line) in SV_STATEMENT_RULES {
        check_line(&rt, rt.alloc(), &["m.sv"], Some(text), None, line)?;
    }
    Ok(())
}

#[test]
fn each_rule_of_c_stands_at_its_token(rt: HostRuntime) -> Result<(), Fail> {
    for &(text, line) in C_RULES {
        check_line(&rt, rt.alloc(), &["m.c"], None, Some(text), line)?;
    }
    Ok(())
}

#[test]
fn each_rule_of_linking_stands_at_its_token(rt: HostRuntime) -> Result<(), Fail> {
    for &(sv, c, line) in LINK_RULES {
        check_line(&rt, rt.alloc(), &["m.sv", "m.c"], Some(sv), Some(c), line)?;
    }
    Ok(())
}
