//! The text of the library.
ghost use Rattle.std.specs.Prelude.{◌≡◌};
ghost use Rattle.dart_program.specs.Prelude.{prelude_text};

/// The text of the library `dart:core`, which is file 0 of every program.
#[tactic(auto, unfolding(dart_program::specs::Prelude::prelude_text, dart_program::specs::Prelude::prelude_lines))]
pub fn prelude() -> &'static str
    ensures { result.now ≡ prelude_text }
{
    "\
print(x) { _print(_text(x)); }
identical(a, b) => a == b;
_text(x) { var t = x.toString(); if (t is String) return t; throw new ArgumentError('toString'); }
_print(t) native print;
_soon(f) native soon;
_future() => new Future._fresh();
_loaded(f) { f._close(null); }
_argument() { throw new ArgumentError(); }
_range() { throw new RangeError(); }
_divide() { throw new IntegerDivisionByZeroException(); }
_noSuch(n) { throw new NoSuchMethodError._(n); }
_cast() { throw new CastError(); }
_cyclic() { throw new CyclicInitializationError(); }
_notLoaded(n) { throw new DeferredNotLoadedError._(n); }
_abstract(n) { throw new AbstractClassInstantiationError._(n); }
_nullThrown() { throw new NullThrownError(); }
class Object { toString() native objectText; }
class Null { toString() => 'null'; }
class bool { toString() => this ? 'true' : 'false'; }
class num {}
class int extends num {
  operator +(o) native intAdd; operator -(o) native intSub; operator *(o) native intMul;
  operator ~/(o) native intDiv; operator %(o) native intMod; operator -() native intNeg;
  operator <(o) native intLess; operator >(o) native intMore;
  operator <=(o) native intUpTo; operator >=(o) native intFrom;
  abs() => this < 0 ? -this : this;
  get isEven => this % 2 == 0; get isOdd => this % 2 == 1;
  compareTo(o) => this < o ? -1 : (this > o ? 1 : 0);
  toString() native intText;
}
class String {
  operator +(o) native textJoin; get length native textLength;
  codeUnitAt(i) native textUnit; substring(a, [b]) native textPart;
  compareTo(o) native textOrder;
  operator [](i) { codeUnitAt(i); return substring(i, i + 1); }
  get isEmpty => length == 0; get isNotEmpty => length != 0;
  startsWith(t) => t.length <= length && substring(0, t.length) == t;
  toString() => this;
}
class List {
  List() native listNew; get length native listLength;
  operator [](i) native listAt; operator []=(i, x) native listPut;
  add(x) native listAdd; removeLast() native listDrop;
  get iterator => new ListIterator(this);
  get isEmpty => length == 0; get isNotEmpty => length != 0;
  get first => this[0]; get last => this[length - 1];
  contains(x) => indexOf(x) >= 0;
  indexOf(x) { for (var i = 0; i < length; i++) { if (this[i] == x) return i; } return -1; }
  addAll(l) { for (var x in l) add(x); }
  clear() { while (length > 0) removeLast(); }
  forEach(f) { for (var i = 0; i < length; i++) f(this[i]); }
  join([s = '']) { var t = ''; for (var i = 0; i < length; i++) { if (i > 0) t = t + s; t = t + '${this[i]}'; } return t; }
  toString() => '[' + join(', ') + ']';
}
class ListIterator {
  var _list; var _at = -1; ListIterator(this._list);
  moveNext() { _at++; return _at < _list.length; }
  get current => _list[_at];
}
class Map {
  Map() native mapNew; get length native mapLength;
  operator [](k) native mapAt; operator []=(k, v) native mapPut;
  containsKey(k) native mapHas; remove(k) native mapDrop; get keys native mapKeys;
  get values { var l = []; for (var k in keys) l.add(this[k]); return l; }
  get isEmpty => length == 0; get isNotEmpty => length != 0;
  forEach(f) { for (var k in keys) f(k, this[k]); }
  toString() { var t = '{'; var l = keys; for (var i = 0; i < l.length; i++) { if (i > 0) t = t + ', '; t = t + '${l[i]}: ${this[l[i]]}'; } return t + '}'; }
}
class Function { toString() => 'Closure'; }
class Future {
  var _done = false; var _value; var _waiting = [];
  Future.value([v]) { _finish(v); }
  Future._fresh();
  then(f) { var g = new Future._fresh(); _after(() { g._finish(f(_value)); }); return g; }
  _after(s) { if (_done) _soon(s); else _waiting.add(s); }
  _finish(v) { if (v is Future) v._after(() { _close(v._value); }); else _close(v); }
  _close(v) { _done = true; _value = v; for (var s in _waiting) _soon(s); }
}
class Exception { final message; Exception([this.message]); toString() => message == null ? 'Exception' : 'Exception: $message'; }
class IntegerDivisionByZeroException implements Exception { toString() => 'IntegerDivisionByZeroException'; }
class Error { toString() => 'Error'; }
class ArgumentError extends Error { final message; ArgumentError([this.message]); toString() => message == null ? 'ArgumentError' : 'ArgumentError: $message'; }
class StateError extends Error { final message; StateError([this.message]); toString() => 'Bad state: $message'; }
class RangeError extends Error { toString() => 'RangeError'; }
class CastError extends Error { toString() => 'CastError'; }
class CyclicInitializationError extends Error { toString() => 'CyclicInitializationError'; }
class NullThrownError extends Error { toString() => 'NullThrownError'; }
class NoSuchMethodError extends Error { final _name; NoSuchMethodError._(this._name); toString() => 'NoSuchMethodError: $_name'; }
class DeferredNotLoadedError extends Error { final _name; DeferredNotLoadedError._(this._name); toString() => 'DeferredNotLoadedError: $_name'; }
class AbstractClassInstantiationError extends Error { final _name; AbstractClassInstantiationError._(this._name); toString() => 'AbstractClassInstantiationError: $_name'; }
"
}
